// Writers of a table: begin, look, put and stop, and what they promise together.
#![tactic(auto)]

use crate::writer::Writer;
use codec::entry::WRITERS;
use store::Store;

pub mod answer;
mod desk;
pub mod laws;
mod looking;
mod opening;
mod putting;
mod reading;
pub mod writer;

// A table in lent memory: the numbers of its store and its writers. The memory goes beside it.
#[derive(Drop)]
pub struct Table {
    store: Store,
    writers: [Writer; WRITERS],
}
