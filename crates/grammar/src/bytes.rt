// Up to N bytes of any value, kept in place: what texts, replies and images are put together in.
// An array with a length: nothing below the programs allocates, and the library's vectors of fixed capacity
// are not `Copy`, as a request has to be.
ghost use Rattle.std.specs.Prelude.{◌≤◌};

#[derive(Clone, Copy)]
pub struct Bytes<const N: usize> {
    bytes: [u8; N],
    len: usize,
    ghost within: { len ≤ N },
}

// Bytes for which there is no room; nothing has then changed.
#[derive(Clone, Copy, PartialEq, Eq, Debug)]
pub struct Full;

mod display;
mod methods;
