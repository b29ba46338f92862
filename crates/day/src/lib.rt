// A day: what the player reads, and what it says.
#![tactic(auto)]

pub mod opening;
pub mod said;
