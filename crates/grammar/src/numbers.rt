// Numbers: an optional minus, one to four digits, then perhaps a point and one to six digits.
mod digits;
mod print;
mod read;
mod scan;

pub use print::print_number;
pub use read::{number_prefix, read_number};
