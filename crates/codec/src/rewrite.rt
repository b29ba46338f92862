// Files written anew from others: one part of the lent memory is read while another is written.
ghost use Rattle.std.specs.Prelude.{◌≡◌, ◌+◌, ◌*◌, ◌≤◌, ◌&&◌, true, cond, Some, None, [], ◌∷◌, length, is_some, ◌++◌, MatchOption};
ghost use Rattle.std.specs.Option.{option_map};
ghost use Rattle.codec.specs.Bounds.{every};
ghost use Rattle.codec.specs.Files.{file_in, row_words, rows_from};
ghost use Rattle.codec.specs.Words.{AreWords, put_at, bytes_of};
ghost use Rattle.codec.specs.Keys.{keys_of};
ghost use Rattle.codec.specs.Rewrites.{fate_of, staying, rewritten, lies_in, apart, part_in, rows_in, is_source, survey, survey_all, rewrite_done, widened_by, memory_around, target_in, rows_kept, AtAnyTarget};

use crate::file::{MOST_ROWS, Rows, read_file};
use crate::seal::put_seal;
use crate::words::put_words;
use crate::write::{NO_KEYS, Written, widened};
use rows::row::Row;
use rows::span::Span;

// A part of the lent memory.
#[derive(Clone, Copy, PartialEq, Eq, Debug)]
pub struct Part {
    pub start: usize,
    pub length: usize,
}

// What was written so far: how many rows, and their keys.
#[derive(Clone, Copy)]
struct Progress {
    count: usize,
    keys: Span,
}

// What becomes of the rows of files that are written anew.
#[derive(Clone, Copy, PartialEq, Eq, Debug)]
pub enum Rewrite {
    // All stay as they are.
    Whole,
    // Those with keys in the span go.
    Outside(Span),
    // So much is added to the amounts of those with keys in the span.
    Raised(Span, u32),
}

impl Rewrite {
    // What becomes of a row: none where its amount would be too large, and none within where it goes.
    fn fate(self, row: Row) -> Option<Option<Row>>
        ensures { result ≡ fate_of self row }
    {
        match self {
            Rewrite::Whole => Some(Some(row)),
            Rewrite::Outside(span) => Some((!span.contains(row.key)).then_some(row)),
            Rewrite::Raised(span, by) => row.raise_within(span, by).map(Some),
        }
    }

    // The row that is written of a row; none where it goes or is refused.
    fn kept(self, row: Row) -> Option<Row>
        ensures { MatchOption result (staying (fate_of self row) ≡ []) (λ kept. staying (fate_of self row) ≡ kept ∷ []) }
    {
        self.fate(row)?
    }

    // How many rows of a file stay; none where the bytes are no file or an amount would be too large, at which the loop is left.
    fn count_staying(self, bytes: &[u8]) -> Option<usize>
        ensures { result ≡ survey self (is_some (file_in bytes.now)) (rows_in bytes.now) }
    {
        read_file(bytes)?;
        let mut count = 0;
        for row in Rows::of(bytes) {
            if self.fate(row)?.is_some() {
                count += 1;
            }
        }
        Some(count)
    }

    // Writes the rows of a file that stay behind those that were written. Only these are counted, and count, keys and place grow together.
    fn put_rows(self, bytes: &[u8], start: Progress, out: &mut [u8]) -> Progress
        requires room { 8 * (4 + 2 * (start.count + length (rewritten self (rows_from bytes.now)))) ≤ length out.old }
        ensures after { out.new ≡ put_at (8 * (3 + 2 * start.count)) (bytes_of (row_words (rewritten self (rows_from bytes.now)))) out.old }
        ensures count { result.count ≡ start.count + length (rewritten self (rows_from bytes.now)) }
        ensures keys { result.keys ≡ widened_by start.keys (rewritten self (rows_from bytes.now)) }
        ensures fit { AreWords (row_words (rewritten self (rows_from bytes.now))) }
    {
        let mut count = start.count;
        let mut keys = start.keys;
        for row in Rows::of(bytes) {
            if let Some(row) = self.kept(row) {
                put_words(out, 3 + 2 * count, &row_words(row));
                count += 1;
                keys = widened(keys, row.key);
            }
        }
        Progress { count, keys }
    }
}

impl Part {
    fn lies_in(self, length: usize) -> bool
        ensures { result ≡ lies_in self length }
    {
        self.start <= length && self.length <= length - self.start
    }

    // The bytes of the part; none where it does not lie in these.
    fn within(self, bytes: &[u8]) -> Option<&[u8]>
        ensures { option_map (λ part. part.now) result ≡ cond (lies_in self (length bytes.now)) (Some (part_in self bytes.now)) None }
    {
        bytes.get(self.start..)?.get(..self.length)
    }
}

fn row_words(row: Row) -> [u64; 2]
    ensures { result ≡ row.key ∷ row.amount ∷ [] }
{
    [row.key as u64, row.amount]
}

// What becomes of the rows of the sources, and the memory before and behind the target, where these are read while it is written.
#[derive(Clone, Copy)]
struct Rewriting<'a> {
    rewrite: Rewrite,
    before: &'a [u8],
    behind: &'a [u8],
    // Where the target ends.
    end: usize,
}

impl<'a> Rewriting<'a> {
    // The bytes of a part of the memory; none where it does not lie in it and apart from the target.
    fn part(&self, part: Part) -> Option<&'a [u8]>
        ensures { AtAnyTarget self.now (λ memory target. option_map (λ bytes. bytes.now) result ≡ cond (lies_in part (length memory) && apart part target) (Some (part_in part memory)) None) }
    {
        match part.start.checked_sub(self.end) {
            Some(start) => Part { start, ..part }.within(self.behind),
            None => part.within(self.before),
        }
    }

    // How many rows of a source stay; none also where it does not lie in the memory and apart from the target.
    fn count_in(&self, source: Part) -> Option<usize>
        ensures { AtAnyTarget self.now (λ memory target. result ≡ survey self.now.rewrite (is_source memory target source) (rows_in (part_in source memory))) }
    {
        self.rewrite.count_staying(self.part(source)?)
    }

    // How many rows of all the sources stay; none also where they are more than a file takes.
    fn count_in_all(&self, sources: &[Part]) -> Option<usize>
        ensures { AtAnyTarget self.now (λ memory target. result ≡ survey_all self.now.rewrite memory target sources.now) }
    {
        let mut total = 0;
        for source in sources {
            let count = self.count_in(*source)?;
            if count > MOST_ROWS - total {
                return None;
            }
            total += count;
        }
        Some(total)
    }

    // Writes the rows of all sources that stay, one source behind the other.
    fn put_all(&self, sources: &[Part], out: &mut [u8]) -> Span
        requires end { self.now.end ≡ length self.now.before.now + length out.old }
        requires valid { every (is_source (memory_around self.now out.old) (target_in self.now out.old)) sources.now ≡ true }
        requires room { 8 * (4 + 2 * length (rows_kept self.now out.old sources.now)) ≤ length out.old }
        ensures after { out.new ≡ put_at 24 (bytes_of (row_words (rows_kept self.now out.old sources.now))) out.old }
        ensures keys { result ≡ keys_of (rows_kept self.now out.old sources.now) }
        ensures fit { AreWords (row_words (rows_kept self.now out.old sources.now)) }
    {
        let mut progress = Progress {
            count: 0,
            keys: NO_KEYS,
        };
        for source in sources {
            if let Some(bytes) = self.part(*source) {
                progress = self.rewrite.put_rows(bytes, progress, out);
            }
        }
        progress.keys
    }
}

// Writes a file of the rows of others, which lie before and behind the target. The two parts are put together only here: where they are split off, nothing would
// be known of the whole after one struct had borrowed from both.
fn rewrite_between(
    before: &[u8],
    out: &mut [u8],
    behind: &[u8],
    sources: &[Part],
    rewrite: Rewrite,
    number: u32,
    began: u64,
) -> Option<Written>
    ensures { (result, before.now ++ (out.new ++ behind.now)) ≡ rewrite_done rewrite (before.now ++ (out.old ++ behind.now)) sources.now (record { start = length before.now; length = length out.old }) number began }
{
    let end = before.len() + out.len();
    let rewriting = Rewriting {
        rewrite,
        before,
        behind,
        end,
    };
    let count = rewriting.count_in_all(sources)?;
    if count == 0 {
        return None;
    }
    let length = 8 * (4 + 2 * count);
    if out.len() < length {
        return None;
    }
    put_words(out, 0, &[number as u64, began, count as u64]);
    let keys = rewriting.put_all(sources, out);
    put_seal(out, 3 + 2 * count);
    Some(Written { length, keys })
}

// Writes one file of the rows of others, which lie in the same memory. Nothing is written where a source is no file or does not lie apart from the target,
// an amount would be too large, the file would be out of its bounds, or the target is too small.
pub fn rewrite_files(
    bytes: &mut [u8],
    sources: &[Part],
    rewrite: Rewrite,
    target: Part,
    number: u32,
    began: u64,
) -> Option<Written>
    ensures { (result, bytes.new) ≡ rewrite_done rewrite bytes.old sources.now target number began }
{
    if !target.lies_in(bytes.len()) {
        return None;
    }
    let (before, rest) = bytes.split_at_mut(target.start);
    let (out, behind) = rest.split_at_mut(target.length);
    rewrite_between(before, out, behind, sources, rewrite, number, began)
}
