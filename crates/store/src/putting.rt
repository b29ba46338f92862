// Putting files: into the first free slot, under the next number.
ghost use Rattle.std.specs.Prelude.{◌≡◌, ◌+◌, ◌*◌, ◌<◌, ◌≤◌, length, slice_set};
ghost use Rattle.store.specs.Memory.{slot_count, files_in_mut, LendsSameFiles};
ghost use Rattle.store.specs.Putting.{next_slot, put_rows, put_rewritten, SameButNext};

use crate::Store;
use crate::limits::NUMBER_LIMIT;
use crate::memory::{FileMemory, FileMemoryMut};
use crate::unput::Unput;
use codec::entry::Added;
use codec::rewrite::{Part, Rewrite, rewrite_files};
use codec::write::{Written, write_file};
use rows::refusal::Refusal;

impl Store {
    // The slot that the next file goes into.
    fn next_slot(&self, memory: FileMemory<'_>) -> Result<usize, Unput>
        ensures { result ≡ next_slot self.now.next memory.entry.directory.now (slot_count self.now memory.entry) }
    {
        if self.next >= NUMBER_LIMIT {
            return Err(Unput::Refused(Refusal::NoRoom(self.room(memory))));
        }
        if self.slot_with(memory, self.next + 1).is_some() {
            return Err(Unput::NumberTaken);
        }
        let Some(slot) = self.slot_with(memory, 0) else {
            return Err(Unput::Refused(Refusal::NoRoom(self.room(memory))));
        };
        Ok(slot)
    }

    // Marks a slot with the next number, and moves on to the number behind it.
    fn fill_slot(&mut self, directory: &mut [u64], slot: usize, written: Written) -> Added
        requires inside { 2 * slot + 2 ≤ length directory.old }
        requires below { self.old.next < 4294967296 }
        ensures added { result ≡ record { number = self.old.next; keys = written.keys } }
        ensures after { directory.new ≡ slice_set (slice_set directory.old (2 * slot) (self.old.next + 1)) (1 + 2 * slot) written.length }
        ensures next { self.new.next ≡ self.old.next + 1 }
        ensures same { SameButNext self.old self.new }
    {
        let number = self.next;
        // By place: memory is lent as numbers, and of pairs lent to be written nothing is known afterwards.
        directory[2 * slot] = number + 1;
        directory[1 + 2 * slot] = written.length as u64;
        self.next = number + 1;
        Added {
            // Below 2^32, as is asked.
            number: number as u32,
            keys: written.keys,
        }
    }

    // Puts a file of lent rows, key and amount of each. Where it cannot be put, nothing changes.
    pub fn put_rows(
        &mut self,
        memory: &mut FileMemoryMut<'_>,
        began: u64,
        lent: &[u64],
    ) -> Result<Added, Unput>
        ensures put { (result, files_in_mut self.new memory.new) ≡ put_rows began lent.now (files_in_mut self.old memory.old) }
        ensures lent { LendsSameFiles memory.old memory.new }
        ensures same { SameButNext self.old self.new }
    {
        let slot = self.next_slot(memory.view())?;
        let start = self.slot_start(memory.view(), slot);
        let out = &mut memory.bytes[start..start + self.slot_size()];
        // A next number of 2^32 was refused by `next_slot`.
        let Some(written) = write_file(self.next as u32, began, lent, out) else {
            return Err(Unput::OutOfBounds);
        };
        Ok(self.fill_slot(memory.directory, slot, written))
    }

    // Puts a file of the rows of others that lie in the same file bytes. Where it cannot be put, nothing changes. Unlike `put_rows` it lends on all of the bytes.
    pub fn put_rewritten(
        &mut self,
        memory: &mut FileMemoryMut<'_>,
        began: u64,
        sources: &[Part],
        rewrite: Rewrite,
    ) -> Result<Added, Unput>
        ensures put { (result, files_in_mut self.new memory.new) ≡ put_rewritten began sources.now rewrite (files_in_mut self.old memory.old) }
        ensures lent { LendsSameFiles memory.old memory.new }
        ensures same { SameButNext self.old self.new }
    {
        let slot = self.next_slot(memory.view())?;
        let target = Part {
            start: self.slot_start(memory.view(), slot),
            length: self.slot_size(),
        };
        // A next number of 2^32 was refused by `next_slot`.
        let number = self.next as u32;
        let Some(written) = rewrite_files(memory.bytes, sources, rewrite, target, number, began)
        else {
            return Err(Unput::OutOfBounds);
        };
        Ok(self.fill_slot(memory.directory, slot, written))
    }
}
