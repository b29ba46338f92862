// Reading a version.
ghost use Rattle.writers.specs.Answers.{told_of, Does};
ghost use Rattle.writers.specs.Deeds.{read_done};
ghost use Rattle.writers.specs.Memory.{memory_of};

use crate::Table;
use crate::answer::Answer;
use rows::refusal::Refusal;
use std::alloc::Global;
use store::memory::{FileMemory, LogMemory};
use versions::reading::read_version;

impl Table {
    // The rows of a version that is kept.
    pub fn read(
        &self,
        heap: Global,
        files: FileMemory<'_>,
        log: LogMemory<'_>,
        version: u64,
    ) -> Result<Answer, Refusal>
        ensures { Does (told_of result) (memory_of self.now files.entry.directory.now files.entry.bytes.now log.entry.ends.now log.entry.bytes.now) (memory_of self.now files.entry.directory.now files.entry.bytes.now log.entry.ends.now log.entry.bytes.now) (read_done version (memory_of self.now files.entry.directory.now files.entry.bytes.now log.entry.ends.now log.entry.bytes.now)) }
    {
        let rows = read_version(heap, &self.store, files, log, version)?;
        Ok(Answer::Rows(rows))
    }
}
