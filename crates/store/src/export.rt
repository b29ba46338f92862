// A store written out as bytes: a header, then each file, then each entry.
ghost use Rattle.std.specs.Prelude.{◌≡◌, ◌+◌, ◌*◌, ◌<◌, ◌≤◌, [], ◌∷◌, length, Ok};
ghost use Rattle.std.specs.List.{flat_map};
ghost use Rattle.rows.specs.Refusals.{UnlessOut};
ghost use Rattle.codec.specs.Seals.{sealed_bytes};
ghost use Rattle.codec.specs.Words.{bytes_of};
ghost use Rattle.store.specs.Export.{Appends, file_of_slot, files_held, entry_held, entries_held, counted, numbered, header_words, header_of, exported};
ghost use Rattle.store.specs.Memory.{slot_count, files_in, log_in};
ghost use Rattle.store.specs.Slots.{items_of};

use crate::Store;
use crate::header::Header;
use crate::memory::{FileMemory, LogMemory};
use rows::refusal::Refusal;
use std::alloc::Global;

// Appends a number as eight bytes, low byte first.
fn push_word(out: &mut Vec<u8>, word: u64) -> Result<(), Refusal>
    ensures { Appends result out.old.items out.new.items (bytes_of (word ∷ [])) }
{
    out.extend_from_slice(&word.to_le_bytes())?;
    Ok(())
}

// Appends numbers, eight bytes each.
fn push_words(out: &mut Vec<u8>, words: &[u64]) -> Result<(), Refusal>
    ensures { Appends result out.old.items out.new.items (bytes_of words.now) }
{
    for word in words {
        push_word(out, *word)?;
    }
    Ok(())
}

// Appends a header, its sum behind its numbers.
fn push_header(out: &mut Vec<u8>, header: Header) -> Result<(), Refusal>
    ensures { Appends result out.old.items out.new.items (sealed_bytes (header_words header)) }
{
    let words = [
        header.horizon,
        header.next,
        header.most_rows,
        header.slots,
        header.files,
        header.entries,
        header.sum(),
    ];
    push_words(out, &words)
}

// Appends bytes behind their count.
fn push_counted(out: &mut Vec<u8>, bytes: &[u8]) -> Result<(), Refusal>
    ensures { Appends result out.old.items out.new.items (counted bytes.now) }
{
    push_word(out, bytes.len() as u64)?;
    out.extend_from_slice(bytes)?;
    Ok(())
}

// Appends a file's number, and its bytes behind their count.
fn push_file(out: &mut Vec<u8>, number: u64, bytes: &[u8]) -> Result<(), Refusal>
    ensures { Appends result out.old.items out.new.items (numbered (number, bytes.now)) }
{
    push_word(out, number)?;
    push_counted(out, bytes)
}

// Appends the entry at a place; one that does not lie in the log has no bytes.
fn push_entry(out: &mut Vec<u8>, log: LogMemory<'_>, place: usize) -> Result<(), Refusal>
    ensures { Appends result out.old.items out.new.items (counted (entry_held (record { count = 0; ends = log.entry.ends.now; bytes = log.entry.bytes.now }) place)) }
{
    push_counted(out, log.entry_bytes(place).unwrap_or(&[]))
}

impl Store {
    // Appends the files, in the order of their slots.
    fn push_files(&self, out: &mut Vec<u8>, files: FileMemory<'_>) -> Result<(), Refusal>
        ensures { Appends result out.old.items out.new.items (flat_map numbered (files_held (files_in self.now files.entry))) }
    {
        for (slot, [mark, _]) in self.slots(files).iter().enumerate() {
            if *mark > 0 {
                push_file(out, mark - 1, self.slot_bytes(files, slot))?;
            }
        }
        Ok(())
    }

    // Appends the entries, in the order of their places.
    fn push_entries(&self, out: &mut Vec<u8>, log: LogMemory<'_>) -> Result<(), Refusal>
        ensures { Appends result out.old.items out.new.items (flat_map counted (entries_held (log_in self.now log.entry))) }
    {
        // Places are counted: in damaged memory there may be fewer ends than entries.
        for place in 0..self.entries as usize {
            push_entry(out, log, place)?;
        }
        Ok(())
    }

    fn header(&self, files: FileMemory<'_>) -> Header
        ensures { result ≡ header_of self.now.horizon self.now.entries (files_in self.now files.entry) }
    {
        let slots = self.slots(files).len();
        Header {
            horizon: self.horizon,
            next: self.next,
            most_rows: self.most_rows,
            slots: slots as u64,
            files: (slots - self.count_free(files)) as u64,
            entries: self.entries,
        }
    }

    // All of the store as bytes: the header, the files in the order of their slots, and the entries.
    pub fn write_out(
        &self,
        heap: Global,
        files: FileMemory<'_>,
        log: LogMemory<'_>,
    ) -> Result<Vec<u8>, Refusal>
        ensures { UnlessOut result (items_of result ≡ Ok (exported self.now.horizon (files_in self.now files.entry) (log_in self.now log.entry))) }
    {
        let mut out = Vec::new(heap);
        push_header(&mut out, self.header(files))?;
        self.push_files(&mut out, files)?;
        self.push_entries(&mut out, log)?;
        Ok(out)
    }
}
