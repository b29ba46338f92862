// Putting an entry, and stopping.
ghost use Rattle.std.specs.Prelude.{◌≡◌, ℕ, List};
ghost use Rattle.store.specs.Memory.{LendsSameLog};
ghost use Rattle.writers.specs.Answers.{told_of};
ghost use Rattle.writers.specs.Deeds.{stop_done, put_done};
ghost use Rattle.writers.specs.Memory.{memory_of};

use crate::Table;
use crate::answer::Answer;
use crate::desk::index_of;
use crate::writer::Writer;
use rows::refusal::{LOG_LIMIT, Refusal};
use store::memory::LogMemoryMut;

impl Table {
    // The writer is idle, whatever it was.
    pub fn stop(&mut self, writer: u64) -> Result<Answer, Refusal>
        ensures { (d fs es l : List ℕ) → (told_of result, memory_of self.new d fs es l) ≡ stop_done writer (memory_of self.old d fs es l) }
    {
        let index = index_of(writer)?;
        self.writers[index] = Writer::Idle;
        Ok(Answer::Fine)
    }

    // Puts the entry of a writer that has looked up to the newest version behind the others, and tells its count. Where it is not put, nothing changes.
    pub fn put(&mut self, log: &mut LogMemoryMut<'_>, writer: u64) -> Result<Answer, Refusal>
        ensures put { (d fs : List ℕ) → (told_of result, memory_of self.new d fs log.new.ends.now log.new.bytes.now) ≡ put_done writer (memory_of self.old d fs log.old.ends.now log.old.bytes.now) }
        ensures lent { LendsSameLog log.old log.new }
    {
        let index = index_of(writer)?;
        let Writer::Ready(draft) = &mut self.writers[index] else {
            return Err(Refusal::IdleWriter(writer));
        };
        let entry = &mut draft.entry;
        let newest = self.store.entries();
        if newest >= LOG_LIMIT {
            return Err(Refusal::LogFull);
        }
        if entry.place != newest {
            return Ok(Answer::NotYet);
        }
        // Below 16, as `index_of` has asked.
        entry.writer = index as u8;
        let touched = entry.change.touched;
        self.store.put_entry(log, entry)?;
        self.writers[index] = Writer::Idle;
        Ok(Answer::Counted(touched))
    }
}
