// Opening a table, of which every writer is idle.
ghost use Rattle.std.specs.Prelude.{◌≡◌, ℕ, List, replicate};
ghost use Rattle.writers.specs.Opening.{memory_in, table_opened, table_reopened};
ghost use Rattle.writers.specs.declared.writer.Writer.TheVariants.{Idle};

use crate::Table;
use crate::writer::Writer;
use codec::entry::WRITERS;
use rows::refusal::Refusal;
use store::Store;

impl Table {
    // A table in memory that was written before, by the four numbers of its store.
    pub fn reopen(horizon: u64, next: u64, entries: u64, most_rows: u64) -> Result<Table, Refusal>
        ensures { (d fs es l : List ℕ) → memory_in result d fs es l ≡ table_reopened horizon next entries most_rows d fs es l }
    {
        let store = Store::reopen(horizon, next, entries, most_rows)?;
        Ok(Table::idle(store))
    }

    // An empty table: every slot of the directory is free, and the log has no entries.
    pub fn open(directory: &mut [u64], horizon: u64, most_rows: u64) -> Result<Table, Refusal>
        ensures { (fs es l : List ℕ) → (memory_in result directory.new fs es l, directory.new) ≡ table_opened horizon most_rows directory.old fs es l }
    {
        let store = Store::open(directory, horizon, most_rows)?;
        Ok(Table::idle(store))
    }

    fn idle(store: Store) -> Table
        ensures { result ≡ record { store = store; writers = replicate 16 Idle } }
    {
        Table {
            store,
            writers: [const { Writer::Idle }; WRITERS],
        }
    }
}
