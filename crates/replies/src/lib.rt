// The texts of replies, and a reply of at most 64 bytes that holds one.
#![tactic(auto)]

pub mod answers;
mod parts;
pub mod reply;

pub use answers::Answer;
pub use reply::Reply;
