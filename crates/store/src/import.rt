// A store read in from the bytes that it was written out as.
ghost use Rattle.std.specs.Prelude.{◌≡◌, ◌+◌, ◌<◌, ◌≤◌, length, IfOk};
ghost use Rattle.store.specs.Import.{file_end, file_read, files_read, entry_end, place_read, entries_read, body_read, numbers_read, read_in};
ghost use Rattle.store.specs.Memory.{LendsSameFiles, LendsSameLog};
ghost use Rattle.store.specs.Reading.{at_of};
ghost use Rattle.store.specs.Slots.{slots};

use crate::Store;
use crate::header::Header;
use crate::memory::{FileMemoryMut, LogMemoryMut};
use crate::reader::Reader;
use crate::unread::Unread;

// Where an entry ends, if so many bytes of log are enough for it.
fn entry_end(from: Reader<'_>, left: usize) -> Result<usize, Unread>
    ensures { result ≡ entry_end from.entry.at left from.entry.bytes.now }
{
    let Some(length) = from.word(0) else {
        return Err(from.cut_short());
    };
    if length > (from.left() - 8) as u64 {
        return Err(from.cut_short());
    }
    if length > left as u64 {
        return Err(Unread::TooSmall);
    }
    Ok(from.at + 8 + length as usize)
}

// Reads an entry to a place, behind the bytes of the log that are used.
fn read_place<'a>(
    from: Reader<'a>,
    log: &mut LogMemoryMut<'_>,
    place: usize,
    used: usize,
) -> Result<Reader<'a>, Unread>
    requires inside { place < length log.old.ends.now }
    requires behind { used ≤ length log.old.bytes.now }
    ensures read { (at_of result, log.new.ends.now, log.new.bytes.now) ≡ place_read from.entry.at from.entry.bytes.now place used log.old.ends.now log.old.bytes.now }
    ensures bytes { IfOk result (λ to. to.bytes.now ≡ from.entry.bytes.now) }
    ensures lent { LendsSameLog log.old log.new }
{
    let end = entry_end(from, log.bytes.len() - used)?;
    let entry = &from.bytes[from.at + 8..end];
    log.bytes[used..used + entry.len()].copy_from_slice(entry);
    log.ends[place] = (used + entry.len()) as u64;
    Ok(Reader {
        bytes: from.bytes,
        at: end,
    })
}

// Reads so many entries to the first places.
fn read_entries<'a>(
    from: Reader<'a>,
    log: &mut LogMemoryMut<'_>,
    count: usize,
) -> Result<Reader<'a>, Unread>
    requires { count ≤ length log.old.ends.now }
    ensures read { (at_of result, log.new.ends.now, log.new.bytes.now) ≡ entries_read from.entry.bytes.now count 0 from.entry.at 0 log.old.ends.now log.old.bytes.now }
    ensures bytes { IfOk result (λ to. to.bytes.now ≡ from.entry.bytes.now) }
    ensures lent { LendsSameLog log.old log.new }
{
    let mut here = from;
    let mut used = 0;
    // Entries are counted: they lie one behind the other, each as long as it says.
    for place in 0..count {
        let next = read_place(here, log, place, used)?;
        used += next.at - here.at - 8;
        here = next;
    }
    Ok(here)
}

impl Store {
    // Where a file ends.
    fn file_end(&self, from: Reader<'_>) -> Result<usize, Unread>
        ensures { result ≡ file_end self.now.most_rows from.entry.at from.entry.bytes.now }
    {
        let (Some(number), Some(length)) = (from.word(0), from.word(8)) else {
            return Err(from.cut_short());
        };
        if number == u64::MAX {
            return Err(Unread::At(from.at as u64));
        }
        if length > self.slot_size() as u64 {
            return Err(Unread::At(from.at as u64 + 8));
        }
        if length > (from.left() - 16) as u64 {
            return Err(from.cut_short());
        }
        Ok(from.at + 16 + length as usize)
    }

    // Reads a file into a slot.
    fn read_slot<'a>(
        &self,
        from: Reader<'a>,
        files: &mut FileMemoryMut<'_>,
        slot: usize,
    ) -> Result<Reader<'a>, Unread>
        requires { slot < slots self.now.most_rows (length files.old.directory.now) (length files.old.bytes.now) }
        ensures read { (at_of result, files.new.directory.now, files.new.bytes.now) ≡ file_read self.now.most_rows from.entry.at from.entry.bytes.now slot files.old.directory.now files.old.bytes.now }
        ensures bytes { IfOk result (λ to. to.bytes.now ≡ from.entry.bytes.now) }
        ensures lent { LendsSameFiles files.old files.new }
    {
        let end = self.file_end(from)?;
        let file = &from.bytes[from.at + 16..end];
        let start = self.slot_start(files.view(), slot);
        // By place: memory is lent as numbers, and of pairs lent to be written nothing is known afterwards.
        files.directory[2 * slot] = from.word(0).unwrap() + 1;
        files.directory[1 + 2 * slot] = file.len() as u64;
        files.bytes[start..start + file.len()].copy_from_slice(file);
        Ok(Reader {
            bytes: from.bytes,
            at: end,
        })
    }

    // Reads so many files into the first slots.
    fn read_files<'a>(
        &self,
        from: Reader<'a>,
        files: &mut FileMemoryMut<'_>,
        count: usize,
    ) -> Result<Reader<'a>, Unread>
        requires { count ≤ slots self.now.most_rows (length files.old.directory.now) (length files.old.bytes.now) }
        ensures read { (at_of result, files.new.directory.now, files.new.bytes.now) ≡ files_read self.now.most_rows from.entry.bytes.now count 0 from.entry.at files.old.directory.now files.old.bytes.now }
        ensures bytes { IfOk result (λ to. to.bytes.now ≡ from.entry.bytes.now) }
        ensures lent { LendsSameFiles files.old files.new }
    {
        let mut here = from;
        // Files are counted: they lie one behind the other, each as long as it says.
        for slot in 0..count {
            here = self.read_slot(here, files, slot)?;
        }
        Ok(here)
    }

    // Reads files and entries behind the header into memory that is large enough for them.
    fn read_body(
        &self,
        bytes: &[u8],
        held: usize,
        files: &mut FileMemoryMut<'_>,
        log: &mut LogMemoryMut<'_>,
    ) -> Result<(), Unread>
        requires header { 56 ≤ length bytes.now }
        requires slots { held ≤ slots self.now.most_rows (length files.old.directory.now) (length files.old.bytes.now) }
        requires places { self.now.entries ≤ length log.old.ends.now }
        ensures read { (result, files.new.directory.now, files.new.bytes.now, log.new.ends.now, log.new.bytes.now) ≡ body_read self.now.most_rows bytes.now held self.now.entries files.old.directory.now files.old.bytes.now log.old.ends.now log.old.bytes.now }
        ensures files { LendsSameFiles files.old files.new }
        ensures log { LendsSameLog log.old log.new }
    {
        files.directory.fill(0);
        let behind = self.read_files(Reader { bytes, at: 56 }, files, held)?;
        let end = read_entries(behind, log, self.entries as usize)?;
        if end.at < bytes.len() {
            return Err(Unread::At(end.at as u64));
        }
        Ok(())
    }

    // The store that bytes were written out of, in memory that is large enough for it. Where there is an error, the memory holds what was read so far.
    pub fn read_in(
        bytes: &[u8],
        files: &mut FileMemoryMut<'_>,
        log: &mut LogMemoryMut<'_>,
    ) -> Result<Store, Unread>
        ensures read { (numbers_read result, files.new.directory.now, files.new.bytes.now, log.new.ends.now, log.new.bytes.now) ≡ read_in bytes.now files.old.directory.now files.old.bytes.now log.old.ends.now log.old.bytes.now }
        ensures files { LendsSameFiles files.old files.new }
        ensures log { LendsSameLog log.old log.new }
    {
        let header = Header::read(bytes)?;
        let store = Store {
            horizon: header.horizon,
            next: header.next,
            entries: header.entries,
            most_rows: header.most_rows,
        };
        if header.slots > store.slots(files.view()).len() as u64 {
            return Err(Unread::TooSmall);
        }
        if header.entries > log.ends.len() as u64 {
            return Err(Unread::TooSmall);
        }
        store.read_body(bytes, header.files as usize, files, log)?;
        Ok(store)
    }
}
