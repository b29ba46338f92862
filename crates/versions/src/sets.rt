// Numbers of files as a set.
ghost use Rattle.std.specs.Prelude.{◌≡◌, ℕ, MatchResult};
ghost use Rattle.std.specs.BTreeSet.{IsOrdered, contains as in_set};
ghost use Rattle.rows.specs.declared.refusal.Refusal.TheVariants.{OutOfMemory};
ghost use Rattle.versions.specs.Alive.{has};
ghost use Rattle.std.specs.Ordering.{nat_cmp};

use rows::refusal::Refusal;
use std::alloc::Global;
use std::collections::BTreeSet;

// So few numbers are put in one by one, for which one allocation is enough.
const FEW: usize = 8;

// The most numbers that a larger set is collected from at first.
const FIRST: usize = 4096;

// Numbers as a set. Many are collected, part by part: none is longer than some times the set by then, so that numbers which stand again and again take no memory.
pub fn set_of(heap: Global, numbers: &[u32]) -> Result<BTreeSet<u32>, Refusal>
    ensures { MatchResult result (λ s. IsOrdered nat_cmp s × ((n : ℕ) → in_set nat_cmp s n ≡ has numbers.now n)) (λ e. e ≡ OutOfMemory) }
{
    let mut set = BTreeSet::new(heap);
    if numbers.len() <= FEW {
        set.extend(numbers)?;
        return Ok(set);
    }
    let mut rest = numbers;
    while !rest.is_empty() {
        let most = set.len().saturating_mul(8).max(FIRST);
        let (part, behind) = rest.split_at(rest.len().min(most));
        set = set.iter().chain(part).copied().collect(heap)?;
        rest = behind;
    }
    Ok(set)
}
