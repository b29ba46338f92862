// The log: entries back to back in lent bytes, and where each of them ends.
ghost use Rattle.std.specs.Prelude.{◌≡◌, length, Ok};
ghost use Rattle.std.specs.Option.{option_map};
ghost use Rattle.rows.specs.Refusals.{UnlessOut};
ghost use Rattle.codec.specs.Entries.{entry_of, entry_read};
ghost use Rattle.store.specs.Log.{log_end, bounds_of, entry_bytes_at, next_start, bytes_left, place_for, entry_at, put_entry};
ghost use Rattle.store.specs.Memory.{log_in_mut, LendsSameLog};

use crate::Store;
use crate::memory::{LogMemory, LogMemoryMut};
use crate::unput::Unput;
use codec::entry::{Entry, entry_length, read_entry, write_entry};
use rows::refusal::{LOG_LIMIT, Refusal};
use std::alloc::Global;

impl<'a> LogMemory<'a> {
    // Where the first `count` entries end.
    fn end_of(self, count: usize) -> Option<u64>
        ensures { result ≡ log_end self.entry.ends.now count }
    {
        if count == 0 {
            return Some(0);
        }
        self.ends.get(count - 1).copied()
    }

    // Where an entry begins and ends, if that lies in the log.
    fn bounds_of(self, place: usize) -> Option<(usize, usize)>
        ensures { result ≡ bounds_of self.entry.ends.now (length self.entry.bytes.now) place }
    {
        let end = self.ends.get(place).copied()?;
        let start = self.end_of(place)?;
        if start > end {
            return None;
        }
        if end > self.bytes.len() as u64 {
            return None;
        }
        Some((start as usize, end as usize))
    }

    // The bytes of an entry, if they lie in the log.
    pub(crate) fn entry_bytes(self, place: usize) -> Option<&'a [u8]>
        ensures { option_map (λ b. b.now) result ≡ entry_bytes_at self.entry.ends.now self.entry.bytes.now place }
    {
        let (start, end) = self.bounds_of(place)?;
        Some(&self.bytes[start..end])
    }

    // Where the next entry goes, if there is a place for its end and the log reaches so far.
    fn next_start(self, count: usize) -> Option<usize>
        ensures { result ≡ next_start self.entry.ends.now (length self.entry.bytes.now) count }
    {
        if count >= self.ends.len() {
            return None;
        }
        let start = self.end_of(count)?;
        if start > self.bytes.len() as u64 {
            return None;
        }
        Some(start as usize)
    }

    // How many bytes of the log are left behind the entries.
    fn bytes_left(self, count: usize) -> u64
        ensures { result ≡ bytes_left self.entry.ends.now (length self.entry.bytes.now) count }
    {
        self.end_of(count)
            .map_or(0, |end| (self.bytes.len() as u64).saturating_sub(end))
    }
}

impl Store {
    // The entry at a place; none where there is none, or what is there does not decode or bears another place.
    pub fn entry(
        &self,
        heap: Global,
        memory: LogMemory<'_>,
        place: u64,
    ) -> Result<Option<Entry>, Refusal>
        ensures { UnlessOut result (entry_read result ≡ Ok (entry_at self.now.entries memory.entry.ends.now memory.entry.bytes.now place)) }
    {
        if place >= self.entries {
            return Ok(None);
        }
        let Some(bytes) = memory.entry_bytes(place as usize) else {
            return Ok(None);
        };
        let entry = read_entry(heap, bytes)?;
        Ok(entry.filter(|entry| entry.place == place))
    }

    // Where an entry would go in the log, and how long it is, if it can be put.
    fn place_for(&self, memory: LogMemory<'_>, entry: &Entry) -> Result<(usize, usize), Unput>
        ensures { result ≡ place_for (entry_of entry.now) self.now.entries memory.entry.ends.now (length memory.entry.bytes.now) }
    {
        let count = self.entries as usize;
        if self.entries >= LOG_LIMIT {
            return Err(Unput::Refused(Refusal::LogFull));
        }
        if entry.place != self.entries {
            return Err(Unput::OtherPlace);
        }
        let Some(length) = entry_length(entry) else {
            return Err(Unput::OutOfBounds);
        };
        let Some(start) = memory.next_start(count) else {
            return Err(Unput::Refused(Refusal::NoRoom(memory.bytes_left(count))));
        };
        if length > memory.bytes.len() - start {
            return Err(Unput::Refused(Refusal::NoRoom(memory.bytes_left(count))));
        }
        Ok((start, length))
    }

    // Puts an entry behind the others, and tells the version that it makes. Where it cannot be put, nothing changes.
    pub fn put_entry(&mut self, memory: &mut LogMemoryMut<'_>, entry: &Entry) -> Result<u64, Unput>
        ensures put { (result, log_in_mut self.new memory.new) ≡ put_entry (entry_of entry.now) (log_in_mut self.old memory.old) }
        ensures lent { LendsSameLog memory.old memory.new }
        ensures same { (self.new.horizon ≡ self.old.horizon) × (self.new.next ≡ self.old.next) × (self.new.most_rows ≡ self.old.most_rows) }
    {
        let (start, length) = self.place_for(memory.view(), entry)?;
        let _ = write_entry(entry, &mut memory.bytes[start..]);
        let count = self.entries;
        memory.ends[count as usize] = (start + length) as u64;
        self.entries = count + 1;
        Ok(count + 1)
    }
}
