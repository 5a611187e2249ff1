// A store of cells over the bytes of an image.
#![tactic(auto)]

mod read;
mod sink;
pub mod store;
mod write;

pub use store::ImageStore;

#[cfg(test)]
mod tests;
