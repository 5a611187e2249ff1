// The commands, what a line asks, the circumstances on which it depends whether it is accepted, and the grounds of
// refusal. Knows nothing of modules, stores or heads: what it needs of them comes in as plain facts.
#![tactic(auto)]

pub mod circumstances;
pub mod commands;
pub mod examples;
pub mod refusals;
pub mod requests;
mod wording;

pub use circumstances::{Access, Circumstances, Control, Origin};
pub use commands::Command;
pub use examples::examples_hold;
pub use refusals::{CallRefusal, LineRefusal};
pub use requests::{Approach, Cell, Question, Request};
