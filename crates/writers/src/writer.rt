// A writer of a table.
use codec::entry::Entry;

// What a ready writer would put: the version at which it began, and its entry. The place of the entry is the version up to which the writer
// has looked.
#[derive(Drop)]
pub struct Draft {
    pub began: u64,
    pub entry: Entry,
}

// An enum with its cases and no Option, as orders and answers are.
#[derive(Drop)]
pub enum Writer {
    Idle,
    Ready(Draft),
}
