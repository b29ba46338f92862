// Files written as bytes to lent memory.
ghost use Rattle.std.specs.Prelude.{◌≡◌};
ghost use Rattle.codec.specs.Keys.{widened};
ghost use Rattle.codec.specs.Writes.{lent_keys, lent_written};

use crate::file::{MOST_ROWS, row_of};
use crate::seal::put_seal;
use crate::words::put_words;
use rows::span::Span;

// The keys of no rows.
pub(crate) const NO_KEYS: Span = Span {
    from: u32::MAX,
    to: 0,
};

// A file that was written: how many bytes it has, and the span from its smallest key to its largest.
#[derive(Clone, Copy, PartialEq, Eq, Debug)]
pub struct Written {
    pub length: usize,
    pub keys: Span,
}

pub(crate) fn widened(keys: Span, key: u32) -> Span
    ensures { result ≡ widened key keys }
{
    Span {
        from: key.min(keys.from),
        to: key.max(keys.to),
    }
}

// The keys of lent rows, if all of them are rows.
fn lent_keys(lent: &[u64]) -> Option<Span>
    ensures { result ≡ lent_keys lent.now }
{
    let mut keys = NO_KEYS;
    for &[key, amount] in lent.as_chunks::<2>().0 {
        let row = row_of(key, amount)?;
        keys = widened(keys, row.key);
    }
    Some(keys)
}

// Writes a file of lent rows, key and amount of each, to the front of a lent part. Where that is too small or the file out of its bounds, nothing is written.
pub fn write_file(number: u32, began: u64, lent: &[u64], out: &mut [u8]) -> Option<Written>
    ensures { (result, out.new) ≡ lent_written number began lent.now out.old }
{
    let count = lent.len() / 2;
    if lent.len() % 2 != 0 {
        return None;
    }
    if count == 0 {
        return None;
    }
    if count > MOST_ROWS {
        return None;
    }
    let keys = lent_keys(lent)?;
    let length = 8 * (4 + 2 * count);
    if out.len() < length {
        return None;
    }
    put_words(out, 0, &[number as u64, began, count as u64]);
    put_words(out, 3, lent);
    put_seal(out, 3 + 2 * count);
    Some(Written { length, keys })
}
