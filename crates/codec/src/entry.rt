// Entries of the log as bytes: place, writer, serial, kind and three numbers of the action, rows touched, how many files come and how many go,
// number, smallest and largest key of each that comes, number of each that goes, and the sum of all these modulo 2^64.
ghost use Rattle.std.specs.Prelude.{◌≡◌, ◌+◌, ◌*◌, ◌%◌, ◌^◌, ◌<◌, ◌≤◌, true, [], ◌∷◌, ◌++◌, length, IfOk, if◌then◌else◌, Some, None, Ok, vec_items};
ghost use Rattle.std.specs.List.{list_all};
ghost use Rattle.std.specs.Option.{option_map};
ghost use Rattle.rows.specs.Refusals.{UnlessOut};
ghost use Rattle.codec.specs.Bounds.{is_word};
ghost use Rattle.codec.specs.Actions.{action_words, action_fits};
ghost use Rattle.codec.specs.Words.{put_at, bytes_of, numbers};
ghost use Rattle.codec.specs.Entries.{added_of, added_fits, count_with, files_writable, added_words, adds_in, takes_in, change_of, change_from, entry_of, front_of, entry_length, entry_written, entry_in, entry_read};

use crate::action::Action;
use crate::seal::{put_seal, unseal};
use crate::words::{Word, narrow, number, put_words};
use rows::refusal::Refusal;
use rows::span::Span;
use std::alloc::{AllocError, Global};

// How many writers there are.
pub const WRITERS: usize = 16;

// The most numbers whose length in bytes fits 64 bits.
const MOST_WORDS: usize = 2305843009213693951;

// A file that an entry adds, and the span from its smallest key to its largest.
#[derive(Clone, Copy, PartialEq, Eq, Debug)]
pub struct Added {
    pub number: u32,
    pub keys: Span,
}

// What an entry does to one table: its action, how many rows that touched, the files that come, and the numbers of those that go.
#[derive(Drop)]
pub struct Change {
    pub action: Action,
    pub touched: u64,
    pub adds: Vec<Added>,
    pub takes: Vec<u32>,
}

// The entry at a place of the log. Its serial is how many entries the writer had put before.
#[derive(Drop)]
pub struct Entry {
    pub place: u64,
    pub writer: u8,
    pub serial: u64,
    pub change: Change,
}

impl Added {
    fn fits(self) -> bool
        ensures { result ≡ added_fits self }
    {
        self.keys.from <= self.keys.to
    }
}

// How many numbers an entry with these files has before its sum; none where its length would not fit.
fn count_words(adds: &[Added], takes: &[u32]) -> Option<usize>
    ensures { result ≡ (if is_word (8 * (count_with adds.now takes.now + 1)) then Some (count_with adds.now takes.now) else None) }
{
    if adds.len() > (MOST_WORDS - 11) / 3 {
        return None;
    }
    if takes.len() > MOST_WORDS - 11 - 3 * adds.len() {
        return None;
    }
    Some(10 + 3 * adds.len() + takes.len())
}

fn all_fit(adds: &[Added]) -> bool
    ensures { result ≡ list_all added_fits adds.now }
{
    adds.iter().all(|added| added.fits())
}

// How many numbers an entry with these files has before its sum; none also where a file is out of its bounds.
fn files_words(adds: &[Added], takes: &[u32]) -> Option<usize>
    ensures { result ≡ (if files_writable adds.now takes.now then Some (count_with adds.now takes.now) else None) }
{
    if !all_fit(adds) {
        return None;
    }
    count_words(adds, takes)
}

// What stands before the files of an entry.
#[derive(Clone, Copy)]
struct Head {
    place: u64,
    writer: u8,
    serial: u64,
    action: Action,
    touched: u64,
    adds: usize,
    takes: usize,
}

impl Head {
    fn words(self) -> [u64; 10]
        ensures value { result ≡ self.place ∷ self.writer ∷ self.serial ∷ (action_words self.action ++ self.touched ∷ self.adds ∷ self.takes ∷ []) }
        ensures fit { (self.place < 2 ^ 64) × (self.serial < 2 ^ 64) × (self.touched < 2 ^ 64) × (action_fits self.action ≡ true) }
    {
        let [kind, a, b, c] = <[u64; 4]>::from(self.action);
        [
            self.place,
            self.writer as u64,
            self.serial,
            kind,
            a,
            b,
            c,
            self.touched,
            self.adds as u64,
            self.takes as u64,
        ]
    }
}

// The ten numbers before the files of an entry, and how many there are before its sum.
#[derive(Clone, Copy)]
struct Front {
    head: [u64; 10],
    count: usize,
}

impl Entry {
    // None where the entry cannot be written.
    fn front(&self) -> Option<Front>
        ensures { result ≡ front_of (entry_of self.now) }
    {
        if self.writer as usize >= WRITERS {
            return None;
        }
        let change = &self.change;
        let count = files_words(change.adds.as_slice(), change.takes.as_slice())?;
        let head = Head {
            place: self.place,
            writer: self.writer,
            serial: self.serial,
            action: change.action,
            touched: change.touched,
            adds: change.adds.len(),
            takes: change.takes.len(),
        };
        Some(Front {
            head: head.words(),
            count,
        })
    }
}

// How many bytes an entry takes; none where it is out of its bounds or its length does not fit.
pub fn entry_length(entry: &Entry) -> Option<usize>
    ensures { result ≡ entry_length (entry_of entry.now) }
{
    Some(8 * (entry.front()?.count + 1))
}

fn put_adds(out: &mut [u8], k: usize, adds: &[Added])
    requires { 8 * (k + 3 * length adds.now) ≤ length out.old }
    ensures { out.new ≡ put_at (8 * k) (bytes_of (added_words adds.now)) out.old }
{
    for (i, added) in adds.iter().enumerate() {
        put_words(
            out,
            k + 3 * i,
            &[
                added.number as u64,
                added.keys.from as u64,
                added.keys.to as u64,
            ],
        );
    }
}

fn put_takes(out: &mut [u8], k: usize, takes: &[u32])
    requires { 8 * (k + length takes.now) ≤ length out.old }
    ensures { out.new ≡ put_at (8 * k) (bytes_of takes.now) out.old }
{
    for (i, number) in takes.iter().enumerate() {
        put_words(out, k + i, &[*number as u64]);
    }
}

// Writes an entry to the front of a lent part, and says how long it is. Where that is too small or the entry out of its bounds, nothing is written.
pub fn write_entry(entry: &Entry, out: &mut [u8]) -> Option<usize>
    ensures { (result, out.new) ≡ entry_written (entry_of entry.now) out.old }
{
    let Front { head, count } = entry.front()?;
    if out.len() / 8 <= count {
        return None;
    }
    put_words(out, 0, &head);
    let change = &entry.change;
    put_adds(out, 10, change.adds.as_slice());
    put_takes(out, 10 + 3 * change.adds.len(), change.takes.as_slice());
    put_seal(out, count);
    Some(8 * (count + 1))
}

// The added file that three numbers are.
fn added_from(number: u64, from: u64, to: u64) -> Option<Added>
    ensures { result ≡ (if added_fits (added_of number from to) then Some (added_of number from to) else None) }
{
    let added = Added {
        number: narrow(number)?,
        keys: Span {
            from: narrow(from)?,
            to: narrow(to)?,
        },
    };
    added.fits().then_some(added)
}

fn read_adds(heap: Global, words: &[Word]) -> Result<Option<Vec<Added>>, AllocError>
    requires { length words.now % 3 ≡ 0 }
    ensures { IfOk result (λ o. option_map vec_items o ≡ adds_in (numbers words.now)) }
{
    let mut adds = Vec::new(heap);
    for [file, from, to] in words.as_chunks::<3>().0 {
        let Some(added) = added_from(number(file), number(from), number(to)) else {
            return Ok(None);
        };
        adds.push(added)?;
    }
    Ok(Some(adds))
}

fn read_takes(heap: Global, words: &[Word]) -> Result<Option<Vec<u32>>, AllocError>
    ensures { IfOk result (λ o. option_map vec_items o ≡ takes_in (numbers words.now)) }
{
    let mut takes = Vec::new(heap);
    for word in words {
        let Some(file) = narrow(number(word)) else {
            return Ok(None);
        };
        takes.push(file)?;
    }
    Ok(Some(takes))
}

fn read_change(heap: Global, words: &[Word]) -> Result<Option<Change>, AllocError>
    ensures { IfOk result (λ o. option_map change_of o ≡ change_from (numbers words.now)) }
{
    let Some(([kind, a, b, c, touched, adds, takes], files)) = words.split_first_chunk::<7>() else {
        return Ok(None);
    };
    let many_adds = number(adds);
    let many_takes = number(takes);
    if many_adds > files.len() as u64 / 3 {
        return Ok(None);
    }
    let (adds, takes) = files.split_at(3 * many_adds as usize);
    if many_takes != takes.len() as u64 {
        return Ok(None);
    }
    let Ok(action) = Action::try_from([number(kind), number(a), number(b), number(c)]) else {
        return Ok(None);
    };
    let Some(adds) = read_adds(heap, adds)? else {
        return Ok(None);
    };
    let Some(takes) = read_takes(heap, takes)? else {
        return Ok(None);
    };
    Ok(Some(Change {
        action,
        touched: number(touched),
        adds,
        takes,
    }))
}

// The entry that bytes are; none where they are cut short or longer, their sum is another, or a number is out of its bounds.
pub fn read_entry(heap: Global, bytes: &[u8]) -> Result<Option<Entry>, Refusal>
    ensures { UnlessOut result (entry_read result ≡ Ok (entry_in bytes.now)) }
{
    let Some(words) = unseal(bytes) else {
        return Ok(None);
    };
    let Some(([place, writer, serial], words)) = words.split_first_chunk::<3>() else {
        return Ok(None);
    };
    let writer = number(writer);
    if writer >= WRITERS as u64 {
        return Ok(None);
    }
    let Some(change) = read_change(heap, words)? else {
        return Ok(None);
    };
    Ok(Some(Entry {
        place: number(place),
        // Below 16.
        writer: writer as u8,
        serial: number(serial),
        change,
    }))
}
