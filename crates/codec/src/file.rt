// Files as bytes: reading them where they lie.
ghost use Rattle.std.specs.Prelude.{◌≡◌, ◌^◌, ◌<◌, length, drop, map, is_some};
ghost use Rattle.std.specs.List.{list_all};
ghost use Rattle.std.specs.Option.{option_map};
ghost use Rattle.std.specs.Iterator.{YieldsFirst, item_count};
ghost use Rattle.codec.specs.Words.{numbers, words_of};
ghost use Rattle.codec.specs.Files.{pairs, head_from, head_in, head_of, file_in, row_of, row_in, row_read, row_fitting, rows_left, rows_from};

use crate::seal::unseal;
use crate::words::{Word, number};
use rows::row::{AMOUNT_LIMIT, Row};

// The most rows of a file. That a log takes as many entries is chance: each may change for itself.
pub const MOST_ROWS: usize = 65536;

// A file but for its rows: its number, the version at which its writer began, and how many rows it has.
#[derive(Clone, Copy, PartialEq, Eq, Debug)]
pub struct Head {
    pub number: u32,
    pub began: u64,
    pub count: usize,
}

// The head that n numbers have whose first three are these.
fn head_from(n: usize, number: u64, began: u64, count: u64) -> Option<Head>
    ensures { result ≡ head_from n number began count }
{
    let number = u32::try_from(number).ok()?;
    if count == 0 {
        return None;
    }
    if count > MOST_ROWS as u64 {
        return None;
    }
    if n as u64 != 3 + 2 * count {
        return None;
    }
    Some(Head {
        number,
        began,
        count: count as usize,
    })
}

// The head that the numbers of a file begin with.
fn head_in(words: &[Word]) -> Option<Head>
    ensures { result ≡ head_in (numbers words.now) }
{
    let (head, _) = words.split_first_chunk::<3>()?;
    head_from(
        words.len(),
        number(&head[0]),
        number(&head[1]),
        number(&head[2]),
    )
}

pub(crate) fn row_of(key: u64, amount: u64) -> Option<Row>
    ensures { result ≡ row_of key amount }
{
    let key = u32::try_from(key).ok()?;
    if amount >= AMOUNT_LIMIT {
        return None;
    }
    Some(Row { key, amount })
}

// The pairs of numbers behind a head.
fn pairs_in(words: &[Word]) -> &[[Word; 2]]
    ensures { map row_read result.now ≡ pairs (drop 3 (numbers words.now)) }
{
    words[words.len().min(3)..].as_chunks().0
}

// The row that two numbers are.
fn row_from(pair: &[Word; 2]) -> Option<Row>
    ensures { result ≡ row_fitting (row_read pair.now) }
{
    let [key, amount] = pair;
    row_of(number(key), number(amount))
}

// The rows of a file one by one, where they lie.
#[derive(Drop)]
pub struct Rows<'a> {
    left: &'a [[Word; 2]],
}

impl<'a> Rows<'a> {
    // All rows of a file; of other bytes those before the first that is out of its bounds.
    pub fn of(bytes: &'a [u8]) -> Rows<'a>
        ensures rows { rows_left result ≡ rows_from bytes.now }
        ensures bound { length (rows_left result) < 2 ^ 64 }
    {
        Rows {
            left: pairs_in(bytes.as_chunks().0),
        }
    }
}

impl<'a> Iterator for Rows<'a> {
    type Item = Row;

    ghost next_gives = { YieldsFirst rows_left };

    ghost remaining = { item_count rows_left };

    fn next(&mut self) -> Option<Row> {
        let (pair, left) = self.left.split_first()?;
        let row = row_from(pair)?;
        self.left = left;
        Some(row)
    }
}

// The i-th row of a file, where it lies; none where there is none or it is out of its bounds.
pub fn row_at(bytes: &[u8], i: usize) -> Option<Row>
    ensures { result ≡ row_in (words_of bytes.now) i }
{
    row_from(pairs_in(bytes.as_chunks().0).get(i)?)
}

fn rows_fit(pairs: &[[Word; 2]]) -> bool
    ensures { result ≡ list_all (λ p. is_some (row_fitting (row_read p))) pairs.now }
{
    pairs.iter().all(|pair| row_from(pair).is_some())
}

// The head of the file that the bytes are; none where they are no file.
pub fn read_file(bytes: &[u8]) -> Option<Head>
    ensures { result ≡ option_map head_of (file_in bytes.now) }
{
    let words = unseal(bytes)?;
    let head = head_in(words)?;
    rows_fit(pairs_in(words)).then_some(head)
}
