// The files: slots of one size in lent bytes, and a directory that says what each slot holds.
ghost use Rattle.std.specs.Prelude.{◌≡◌, ◌+◌, ◌*◌, ◌<◌, ◌≤◌, length, Ok};
ghost use Rattle.std.specs.List.{position};
ghost use Rattle.rows.specs.Refusals.{UnlessOut};
ghost use Rattle.store.specs.Memory.{slot_count};
ghost use Rattle.store.specs.Slots.{numbers_below, items_of, slot_size, slots, slots_in, is_marked, slot_with, free_below, room_for, slot_bytes, stored, freed};

use crate::Store;
use crate::limits::NUMBER_LIMIT;
use crate::memory::FileMemory;
use codec::file::{Head, read_file};
use codec::rewrite::Part;
use rows::refusal::Refusal;
use std::alloc::Global;

// A file of the store: where it lies among the file bytes, and its head.
#[derive(Clone, Copy)]
pub struct Stored {
    pub part: Part,
    pub head: Head,
}

fn first_marked(slots: &[[u64; 2]], mark: u64) -> Option<usize>
    ensures { result ≡ position (is_marked mark) slots.now }
{
    slots.iter().position(|[own, _]| *own == mark)
}

impl Store {
    pub(crate) fn slot_size(&self) -> usize
        ensures { result ≡ slot_size self.now.most_rows }
    {
        8 * (4 + 2 * self.most_rows as usize)
    }

    // What the directory has of each slot that the memory has: its mark, and how many bytes its file has.
    pub(crate) fn slots<'a>(&self, memory: FileMemory<'a>) -> &'a [[u64; 2]]
        ensures slots { result.now ≡ slots_in (slot_count self.now memory.entry) memory.entry.directory.now }
        ensures count { length result.now ≡ slot_count self.now memory.entry }
    {
        let (slots, _) = memory.directory.as_chunks::<2>();
        let count = slots.len().min(memory.bytes.len() / self.slot_size());
        &slots[..count]
    }

    // The first slot with a mark.
    pub(crate) fn slot_with(&self, memory: FileMemory<'_>, mark: u64) -> Option<usize>
        ensures { result ≡ slot_with memory.entry.directory.now (slot_count self.now memory.entry) mark }
    {
        first_marked(self.slots(memory), mark)
    }

    // How many slots are free. A loop: `filter(..).count()` takes about twice the time.
    pub(crate) fn count_free(&self, memory: FileMemory<'_>) -> usize
        ensures { result ≡ free_below memory.entry.directory.now (slot_count self.now memory.entry) }
    {
        let mut free = 0;
        for [mark, _] in self.slots(memory) {
            if *mark == 0 {
                free += 1;
            }
        }
        free
    }

    // Where a slot begins among the file bytes.
    pub(crate) fn slot_start(&self, memory: FileMemory<'_>, slot: usize) -> usize
        requires { slot < slot_count self.now memory }
        ensures start { result ≡ slot * slot_size self.now.most_rows }
        ensures inside { result + slot_size self.now.most_rows ≤ length memory.entry.bytes.now }
        ensures marked { 2 * slot + 2 ≤ length memory.entry.directory.now }
    {
        slot * self.slot_size()
    }

    // How many files more there is room for.
    pub fn room(&self, memory: FileMemory<'_>) -> u64
        ensures { result ≡ room_for self.now.next memory.entry.directory.now (slot_count self.now memory.entry) }
    {
        let free = self.count_free(memory) as u64;
        free.min(NUMBER_LIMIT - self.next)
    }

    // The bytes of the file in a slot; none where it says that they are more than a slot has.
    pub(crate) fn slot_bytes<'a>(&self, memory: FileMemory<'a>, slot: usize) -> &'a [u8]
        requires { slot < slot_count self.now memory }
        ensures { result.now ≡ slot_bytes self.now.most_rows memory.entry.directory.now memory.entry.bytes.now slot }
    {
        let start = self.slot_start(memory, slot);
        let [_, length] = self.slots(memory)[slot];
        if length > self.slot_size() as u64 {
            return &[];
        }
        &memory.bytes[start..start + length as usize]
    }

    // The file under a number; none where there is none, or what is there does not decode or bears another number.
    pub fn file(&self, memory: FileMemory<'_>, number: u32) -> Option<Stored>
        ensures { result ≡ stored self.now.most_rows memory.entry.directory.now memory.entry.bytes.now number }
    {
        let slot = self.slot_with(memory, number as u64 + 1)?;
        let bytes = self.slot_bytes(memory, slot);
        let head = read_file(bytes)?;
        if head.number != number {
            return None;
        }
        let part = Part {
            start: self.slot_start(memory, slot),
            length: bytes.len(),
        };
        Some(Stored { part, head })
    }

    // Every slot that has a number is free afterwards. The bytes are only counted, so they need not be lent to be written.
    pub fn delete(&self, directory: &mut [u64], bytes: &[u8], number: u32)
        ensures { directory.new ≡ freed directory.old (number + 1) (slots self.now.most_rows (length directory.old) (length bytes.now)) }
    {
        let mark = number as u64 + 1;
        let count = self.slots(FileMemory { directory, bytes }).len();
        // Each slot is looked at and written, and of chunks lent to be written nothing is known afterwards.
        for slot in 0..count {
            if directory[2 * slot] == mark {
                directory[2 * slot] = 0;
            }
        }
    }

    // The numbers of the files, in the order of their slots.
    pub fn files(&self, heap: Global, memory: FileMemory<'_>) -> Result<Vec<u64>, Refusal>
        ensures { UnlessOut result (items_of result ≡ Ok (numbers_below memory.entry.directory.now (slot_count self.now memory.entry))) }
    {
        let slots = self.slots(memory).iter();
        let held = slots.map(|[mark, _]| *mark).filter(|mark| *mark > 0);
        Ok(held.map(|mark| mark - 1).collect(heap)?)
    }
}
