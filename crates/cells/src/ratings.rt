// The rated spans of a power module, as plain values.
pub use grammar::Span;

#[derive(Clone, Copy)]
pub struct Ratings {
    pub current: Span,
    pub voltage: Span,
}
