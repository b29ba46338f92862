// The writers of a table, one by one.
ghost use Rattle.std.specs.Prelude.{◌≡◌, ◌<◌, ◌≤◌, MatchResult};
ghost use Rattle.rows.specs.declared.refusal.Refusal.TheVariants.{NoSuchWriter};

use codec::entry::WRITERS;
use rows::refusal::Refusal;

// The index of a writer, if there is such a one.
pub(crate) fn index_of(writer: u64) -> Result<usize, Refusal>
    ensures { MatchResult result (λ index. (index ≡ writer) × (index < 16)) (λ e. (e ≡ NoSuchWriter writer) × (16 ≤ writer)) }
{
    if writer >= WRITERS as u64 {
        return Err(Refusal::NoSuchWriter(writer));
    }
    Ok(writer as usize)
}
