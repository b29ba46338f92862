// The memory that a store lies in: lent slices, two for its files and two for its log.
ghost use Rattle.std.specs.Prelude.{◌≡◌};

// Where files lie: a directory with two numbers for each slot, the number of its file plus one (0 where it is free) and how many bytes the file has,
// and the bytes of the slots, one slot behind the other.
#[derive(Clone, Copy)]
pub struct FileMemory<'a> {
    pub directory: &'a [u64],
    pub bytes: &'a [u8],
}

// The same, lent to be written.
#[derive(Drop)]
pub struct FileMemoryMut<'a> {
    pub directory: &'a mut [u64],
    pub bytes: &'a mut [u8],
}

impl FileMemoryMut<'_> {
    pub fn view(&self) -> FileMemory<'_>
        ensures directory { result.directory.now ≡ self.now.directory.now }
        ensures bytes { result.bytes.now ≡ self.now.bytes.now }
    {
        FileMemory {
            directory: self.directory,
            bytes: self.bytes,
        }
    }
}

// Where entries lie: where each of them ends, and their bytes back to back. A type of its own, so that it is never taken for the memory of files.
#[derive(Clone, Copy)]
pub struct LogMemory<'a> {
    pub ends: &'a [u64],
    pub bytes: &'a [u8],
}

// The same, lent to be written.
#[derive(Drop)]
pub struct LogMemoryMut<'a> {
    pub ends: &'a mut [u64],
    pub bytes: &'a mut [u8],
}

impl LogMemoryMut<'_> {
    pub fn view(&self) -> LogMemory<'_>
        ensures ends { result.ends.now ≡ self.now.ends.now }
        ensures bytes { result.bytes.now ≡ self.now.bytes.now }
    {
        LogMemory {
            ends: self.ends,
            bytes: self.bytes,
        }
    }
}
