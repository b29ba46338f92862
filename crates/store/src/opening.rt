// Opening a store, and opening one again.
ghost use Rattle.std.specs.Prelude.{◌≡◌, length, replicate};
ghost use Rattle.store.specs.Opening.{numbers_of, opened, reopened};

use crate::Store;
use crate::limits::{MOST_ROWS, NUMBER_LIMIT};
use rows::horizon::horizon_from;
use rows::refusal::{LOG_LIMIT, Refusal};

impl Store {
    // A store written before, by its four numbers. What its memory holds is looked at when it is asked for.
    pub fn reopen(horizon: u64, next: u64, entries: u64, most_rows: u64) -> Result<Store, Refusal>
        ensures { numbers_of result ≡ reopened horizon next entries most_rows }
    {
        let horizon = horizon_from(horizon)?;
        if most_rows == 0 {
            return Err(Refusal::NoRoom(0));
        }
        if most_rows > MOST_ROWS {
            return Err(Refusal::NoRoom(0));
        }
        if next > NUMBER_LIMIT {
            return Err(Refusal::NoRoom(0));
        }
        if entries > LOG_LIMIT {
            return Err(Refusal::LogFull);
        }
        Ok(Store {
            horizon,
            next,
            entries,
            most_rows,
        })
    }

    // An empty store: every slot of the directory is free, and the log has no entries.
    pub fn open(directory: &mut [u64], horizon: u64, most_rows: u64) -> Result<Store, Refusal>
        ensures { (numbers_of result, directory.new) ≡ opened horizon most_rows directory.old }
    {
        let store = Store::reopen(horizon, 0, 0, most_rows)?;
        directory.fill(0);
        Ok(store)
    }

    pub fn horizon(&self) -> u64
        ensures { result ≡ self.now.horizon }
    {
        self.horizon
    }

    // The number that the next file bears.
    pub fn next(&self) -> u64
        ensures { result ≡ self.now.next }
    {
        self.next
    }

    // How many entries the log has, which is the newest version.
    pub fn entries(&self) -> u64
        ensures { result ≡ self.now.entries }
    {
        self.entries
    }

    // The most rows of a file of this store.
    pub fn most_rows(&self) -> u64
        ensures { result ≡ self.now.most_rows }
    {
        self.most_rows
    }
}
