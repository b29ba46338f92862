// The files of a table after a change: those that it takes go, and those that it adds come behind the others.
ghost use Rattle.std.specs.Prelude.{◌≡◌, MatchResult};
ghost use Rattle.rows.specs.declared.refusal.Refusal.TheVariants.{OutOfMemory};
ghost use Rattle.codec.specs.Entries.{change_of};
ghost use Rattle.versions.specs.Alive.{after};

use crate::sets::set_of;
use codec::entry::Change;
use rows::refusal::Refusal;
use std::alloc::Global;

// The files after a change.
pub(crate) fn apply_change(
    live: &mut Vec<u32>,
    heap: Global,
    change: &Change,
) -> Result<(), Refusal>
    ensures { MatchResult result (λ _. live.new.items ≡ after live.old.items (change_of change.now)) (λ e. e ≡ OutOfMemory) }
{
    if !change.takes.is_empty() {
        let taken = set_of(heap, &change.takes)?;
        live.retain(|number| !taken.contains(number));
    }
    live.extend(change.adds.iter().map(|added| added.number))?;
    Ok(())
}
