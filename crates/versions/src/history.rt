// The first entries of a log, opened: which files they leave, and whose they are.
ghost use Rattle.std.specs.Prelude.{◌≡◌, ◌<◌, Ok};
ghost use Rattle.rows.specs.Refusals.{UnlessOut};
ghost use Rattle.store.specs.Memory.{log_in};
ghost use Rattle.store.specs.Slots.{items_of};
ghost use Rattle.versions.specs.Histories.{history_in, history_of, entries_of, live_of, puts_by, is_put, first_place};

use crate::live::apply_change;
use codec::entry::Entry;
use rows::refusal::Refusal;
use std::alloc::Global;
use store::Store;
use store::memory::LogMemory;

#[derive(Drop)]
pub struct History {
    entries: Vec<Entry>,
}

impl History {
    // Opens the entries below a version, in order; the first that is none is told.
    pub fn open(
        heap: Global,
        store: &Store,
        log: LogMemory<'_>,
        version: u64,
    ) -> Result<History, Refusal>
        ensures { UnlessOut result (history_of result ≡ history_in (log_in store.now log.entry) version) }
    {
        let mut entries = Vec::new(heap);
        // By place: entries lie in lent bytes, and each is opened for itself.
        for place in 0..version.min(store.entries()) {
            let Some(entry) = store.entry(heap, log, place)? else {
                // A log has 65,536 entries at most. One look-up for this and for looks would have to ask that of its callers.
                return Err(Refusal::DamagedEntry(place as u32));
            };
            entries.push(entry)?;
        }
        Ok(History { entries })
    }

    // The numbers of the files that the entries leave, in the order of coming.
    pub fn live(&self, heap: Global) -> Result<Vec<u32>, Refusal>
        ensures { UnlessOut result (items_of result ≡ Ok (live_of (entries_of self.now))) }
    {
        let mut live = Vec::new(heap);
        for entry in &self.entries {
            apply_change(&mut live, heap, &entry.change)?;
        }
        Ok(live)
    }

    // How many of the entries a writer put.
    pub fn written_by(&self, writer: u8) -> u64
        ensures { result ≡ puts_by writer (entries_of self.now) }
    {
        self.entries
            .iter()
            .filter(|entry| entry.writer == writer)
            .count() as u64
    }

    // The place of the entry that a writer put behind so many of its own, if it is there: how a program finds out whether its put was done.
    pub fn find_put(&self, writer: u8, serial: u64) -> Option<u64>
        ensures { result ≡ first_place (is_put writer serial) 0 (entries_of self.now) }
    {
        self.entries
            .iter()
            .position(|entry| entry.writer == writer && entry.serial == serial)
            .map(|place| place as u64)
    }
}
