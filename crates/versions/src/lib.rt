// Versions of a table: which files a version has, and which rows.
#![tactic(auto)]

mod held;
pub mod history;
pub mod kept;
pub mod laws;
mod live;
pub mod preview;
pub mod reading;
pub mod sets;
