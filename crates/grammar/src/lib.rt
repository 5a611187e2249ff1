// The grammar of command lines and replies.
#![tactic(auto)]

mod base;
pub mod bytes;
pub mod counts;
mod digits;
pub mod examples;
pub mod fields;
pub mod masks;
pub mod numbers;
pub mod output;
pub mod quantity;
pub mod span;
pub mod text;
pub mod typed;
pub mod words;

pub use bytes::{Bytes, Full};
pub use counts::{print_count, read_index};
pub use examples::examples_hold;
pub use fields::{Fields, split_fields};
pub use masks::{print_mask, read_mask};
pub use numbers::{number_prefix, print_number, read_number};
pub use output::append;
pub use quantity::Quantity;
pub use span::Span;
pub use text::{TEXT_MOST, Text};
pub use typed::{is_text, read_text};
pub use words::same_word;

#[cfg(test)]
mod tests;
