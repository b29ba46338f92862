// The object store: files under numbers and entries under places, in memory that the caller lends.
#![tactic(auto)]

ghost use Rattle.std.specs.Prelude.{◌≤◌};

mod export;
pub mod files;
pub mod header;
mod import;
pub mod laws;
mod limits;
pub mod log;
pub mod memory;
pub mod opening;
mod putting;
mod reader;
pub mod unput;
pub mod unread;

// What a store owns: its numbers. The memory that holds files and entries goes beside it.
#[derive(Clone, Copy)]
pub struct Store {
    horizon: u64,
    next: u64,
    entries: u64,
    most_rows: u64,
    ghost near: { horizon ≤ 4096 },
    ghost numbered: { next ≤ 4294967296 },
    ghost logged: { entries ≤ 65536 },
    ghost some: { 1 ≤ most_rows },
    ghost few: { most_rows ≤ 65536 },
}
