// Whether a line is accepted in its circumstances, and else on which ground it is refused.
#![tactic(auto)]

pub mod deciding;
mod facts;
pub mod judgement;

pub use deciding::decide;
pub use judgement::judge;
