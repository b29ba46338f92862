// Looking at the entries that came since.
ghost use Rattle.std.specs.Prelude.{◌≡◌, ℕ, ◌-◌, List};
ghost use Rattle.rows.specs.Refusals.{UnlessOut};
ghost use Rattle.codec.specs.Entries.{change_of};
ghost use Rattle.store.specs.Memory.{log_in};
ghost use Rattle.writers.specs.Answers.{told_of, Does};
ghost use Rattle.writers.specs.Deeds.{conflict_among, look_done, span_of};
ghost use Rattle.writers.specs.Memory.{memory_of};

use crate::Table;
use crate::answer::Answer;
use crate::desk::index_of;
use crate::writer::Writer;
use codec::action::Action;
use codec::entry::Change;
use rows::refusal::Refusal;
use rows::span::Span;
use std::alloc::Global;
use store::Store;
use store::memory::LogMemory;
use versions::kept::is_kept;
use versions::sets::set_of;

// The span in which an action changes rows.
fn span_of(action: Action) -> Option<Span>
    ensures { result ≡ span_of action }
{
    match action {
        Action::Erase(span) => Some(span),
        Action::Raise(span, _) => Some(span),
        Action::Insert => None,
        Action::Pack(_) => None,
    }
}

// Whether an entry since is in conflict: it takes a file that mine takes too, or adds one with keys in my span.
fn conflict_since(
    heap: Global,
    store: &Store,
    log: LogMemory<'_>,
    looked: u64,
    mine: &Change,
) -> Result<bool, Refusal>
    ensures { UnlessOut result (result ≡ conflict_among (change_of mine.now) (log_in store.now log.entry) (store.now.entries - looked) looked) }
{
    let taken = set_of(heap, &mine.takes)?;
    let span = span_of(mine.action);
    // Places are counted, since entries lie in lent bytes; the loops over entries and their files are left by a label.
    let found = 'search: {
        for place in looked..store.entries() {
            let Some(entry) = store.entry(heap, log, place)? else {
                // A log has 65,536 entries at most.
                return Err(Refusal::DamagedEntry(place as u32));
            };
            for number in &entry.change.takes {
                if taken.contains(number) {
                    break 'search true;
                }
            }
            let Some(keys) = span else {
                continue;
            };
            for added in &entry.change.adds {
                if keys.overlaps(added.keys) {
                    break 'search true;
                }
            }
        }
        false
    };
    Ok(found)
}

impl Table {
    // Looks at the entries that came since the writer looked last. Where one is in conflict, or the version at which the writer began is no longer kept, it is told to begin anew and is idle.
    pub fn look(&mut self, heap: Global, log: LogMemory<'_>, writer: u64) -> Result<Answer, Refusal>
        ensures { (d fs : List ℕ) → Does (told_of result) (memory_of self.old d fs log.entry.ends.now log.entry.bytes.now) (memory_of self.new d fs log.entry.ends.now log.entry.bytes.now) (look_done writer (memory_of self.old d fs log.entry.ends.now log.entry.bytes.now)) }
    {
        let index = index_of(writer)?;
        let Writer::Ready(draft) = &mut self.writers[index] else {
            return Err(Refusal::IdleWriter(writer));
        };
        let entry = &mut draft.entry;
        if !is_kept(&self.store, draft.began)
            || conflict_since(heap, &self.store, log, entry.place, &entry.change)?
        {
            self.writers[index] = Writer::Idle;
            return Ok(Answer::Again);
        }
        entry.place = self.store.entries();
        Ok(Answer::Fine)
    }
}
