// Parameter cells: their directory, their values, and stores of them by what they mean.
#![tactic(auto)]

pub mod array;
pub mod directory;
pub mod ratings;
pub mod reading;
pub mod roles;
pub mod stored;
pub mod stores;
pub mod table;
pub mod values;

pub use array::CellArray;
pub use directory::{CELL_COUNT, all_roles, kind_at, place_of, role_of};
pub use grammar::Span;
pub use ratings::Ratings;
pub use reading::{exchange_number, read_cell};
pub use roles::{Kind, Role, Writer};
pub use stored::{CellValue, Stored, Unfit};
pub use stores::{CellStore, Unable};
pub use table::TableStore;
pub use values::is_lawful_mask;
