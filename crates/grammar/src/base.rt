// A base that digits are written in: 2 to 36, as many as there are digits and letters.
ghost use Rattle.std.specs.Prelude.{◌≤◌};

#[derive(Clone, Copy)]
pub(crate) struct Base {
    pub(crate) value: u32,
    ghost least: { 2 ≤ value },
    ghost most: { value ≤ 36 },
}

impl Base {
    pub(crate) const DECIMAL: Base = Base { value: 10 };

    pub(crate) const HEXADECIMAL: Base = Base { value: 16 };
}
