// Files and entries as bytes: the ones that docs/FORMATS.md shows, and what is none.
use crate::given::{AMOUNTS, KEYS, span};
use codec::action::Action;
use codec::entry::{Added, Change, Entry, entry_length, read_entry, write_entry};
use codec::file::{Head, read_file, row_at};
use codec::rewrite::{Part, Rewrite, rewrite_files};
use codec::write::{Written, write_file};
use rows::refusal::Refusal;
use rows::row::Row;
use rows::span::Span;
use std::alloc::{AllocError, Global};
use std::process::Abort;
use std::test::Fail;

// 258 7 2 1 5 70000 1000000 and the sum 1070273.
const FILE: &[u8; 64] = b"\
    \x02\x01\x00\x00\x00\x00\x00\x00\
    \x07\x00\x00\x00\x00\x00\x00\x00\
    \x02\x00\x00\x00\x00\x00\x00\x00\
    \x01\x00\x00\x00\x00\x00\x00\x00\
    \x05\x00\x00\x00\x00\x00\x00\x00\
    \x70\x11\x01\x00\x00\x00\x00\x00\
    \x40\x42\x0f\x00\x00\x00\x00\x00\
    \xc1\x54\x10\x00\x00\x00\x00\x00";

// 259 8 1 70000 1000000 and the sum 1070268: what stays of FILE without its first row.
const REST: &[u8; 48] = b"\
    \x03\x01\x00\x00\x00\x00\x00\x00\
    \x08\x00\x00\x00\x00\x00\x00\x00\
    \x01\x00\x00\x00\x00\x00\x00\x00\
    \x70\x11\x01\x00\x00\x00\x00\x00\
    \x40\x42\x0f\x00\x00\x00\x00\x00\
    \xbc\x54\x10\x00\x00\x00\x00\x00";

// 2 11 300 2 4 9 100 1 1 1 5 1 70000 3 and the sum 70440.
const ENTRY: &[u8; 120] = b"\
    \x02\x00\x00\x00\x00\x00\x00\x00\
    \x0b\x00\x00\x00\x00\x00\x00\x00\
    \x2c\x01\x00\x00\x00\x00\x00\x00\
    \x02\x00\x00\x00\x00\x00\x00\x00\
    \x04\x00\x00\x00\x00\x00\x00\x00\
    \x09\x00\x00\x00\x00\x00\x00\x00\
    \x64\x00\x00\x00\x00\x00\x00\x00\
    \x01\x00\x00\x00\x00\x00\x00\x00\
    \x01\x00\x00\x00\x00\x00\x00\x00\
    \x01\x00\x00\x00\x00\x00\x00\x00\
    \x05\x00\x00\x00\x00\x00\x00\x00\
    \x01\x00\x00\x00\x00\x00\x00\x00\
    \x70\x11\x01\x00\x00\x00\x00\x00\
    \x03\x00\x00\x00\x00\x00\x00\x00\
    \x28\x13\x01\x00\x00\x00\x00\x00";

// The bytes of numbers and of their sum.
fn sealed(heap: Global, numbers: &[u64]) -> Result<Vec<u8>, AllocError> {
    let mut bytes = Vec::new(heap);
    let mut total: u64 = 0;
    for number in numbers {
        bytes.extend_from_slice(&number.to_le_bytes())?;
        total = total.wrapping_add(*number);
    }
    bytes.extend_from_slice(&total.to_le_bytes())?;
    Ok(bytes)
}

// Whether memory is as it was but for these bytes at a place.
fn holds(memory: &[u8], before: &[u8], at: usize, bytes: &[u8]) -> bool {
    if memory.len() != before.len() || at > memory.len() || bytes.len() > memory.len() - at {
        return false;
    }
    let end = at + bytes.len();
    &memory[..at] == &before[..at] && &memory[at..end] == bytes && &memory[end..] == &before[end..]
}

#[test]
fn a_file_reads_as_its_head_and_rows(rt: HostRuntime) {
    assert_eq!(rt;
        read_file(FILE),
        Some(Head {
            number: 258,
            began: 7,
            count: 2,
        })
    );
    assert_eq!(rt; row_at(FILE, 0), Some(Row { key: 1, amount: 5 }));
    assert_eq!(rt;
        row_at(FILE, 1),
        Some(Row {
            key: 70000,
            amount: 1000000,
        })
    );
    assert_eq!(rt; row_at(FILE, 2), None);
    assert_eq!(rt; row_at(FILE, usize::MAX), None);
}

#[test]
fn a_file_is_written_as_its_bytes_and_no_others(rt: HostRuntime) {
    let before = [0xaa; 80];
    let mut memory = before;
    assert_eq!(rt;
        write_file(258, 7, &[1, 5, 70000, 1000000], &mut memory),
        Some(Written {
            length: 64,
            keys: span(1, 70000),
        })
    );
    assert!(rt; holds(&memory, &before, 0, FILE));
}

// Whether a write of these rows to the first bytes of memory, so many of them, is none.
fn refuses(lent: &[u64], memory: &mut [u8], room: usize) -> bool {
    room <= memory.len() && write_file(258, 7, lent, &mut memory[..room]).is_none()
}

// Whether a write of these rows to so many bytes is none and changes nothing.
fn is_not_written(lent: &[u64], room: usize) -> bool {
    let before = [0xaa; 80];
    let mut memory = before;
    refuses(lent, &mut memory, room) && holds(&memory, &before, 0, &[])
}

#[test]
fn what_is_no_file_is_not_written(rt: HostRuntime) {
    assert!(rt; is_not_written(&[1, 5, 70000, 1000000], 63));
    assert!(rt; is_not_written(&[1, 5, 70000, 1000000], 0));
    assert!(rt; is_not_written(&[1, 5, 70000], 80));
    assert!(rt; is_not_written(&[], 80));
    assert!(rt; is_not_written(&[1, 5, KEYS, 1000000], 80));
    assert!(rt; is_not_written(&[1, AMOUNTS, 70000, 1000000], 80));
    assert!(rt; !is_not_written(&[1, 5, 70000, 1000000], 64));
    assert!(rt; !is_not_written(&[KEYS - 1, AMOUNTS - 1], 80));
}

// Whether the file is none once the number at a place is one more, and once it is one less. Each time only the lowest byte of the number changes.
fn changed_file_is_none(k: usize) -> bool {
    let mut more = *FILE;
    let mut less = *FILE;
    if k >= 8 {
        return false;
    }
    more[8 * k] = more[8 * k].wrapping_add(1);
    less[8 * k] = less[8 * k].wrapping_sub(1);
    read_file(&more).is_none() && read_file(&less).is_none()
}

#[test]
fn a_file_with_a_number_changed_by_one_is_none(rt: HostRuntime) {
    for k in 0..8 {
        assert!(rt; changed_file_is_none(k));
    }
}

#[test]
fn a_file_that_is_cut_short_or_longer_is_none(rt: HostRuntime) {
    let mut longer = [0; 72];
    longer[..64].copy_from_slice(FILE);
    assert!(rt; read_file(&longer[..64]).is_some());
    assert!(rt; read_file(&longer).is_none());
    assert!(rt; read_file(&longer[..65]).is_none());
    assert!(rt; read_file(&FILE[..63]).is_none());
    assert!(rt; read_file(&FILE[..56]).is_none());
    assert!(rt; read_file(&FILE[..0]).is_none());
}

// Whether numbers with their right sum are a file.
fn is_file(heap: Global, numbers: &[u64]) -> Result<bool, AllocError> {
    let bytes = sealed(heap, numbers)?;
    Ok(read_file(bytes.as_slice()).is_some())
}

#[test]
fn a_file_out_of_its_bounds_is_none(rt: HostRuntime) -> Result<(), Fail> {
    let heap = rt.alloc();
    assert!(rt; is_file(heap, &[KEYS - 1, u64::MAX, 1, KEYS - 1, AMOUNTS - 1])?);
    assert!(rt; !is_file(heap, &[KEYS, 7, 1, 1, 5])?);
    assert!(rt; !is_file(heap, &[258, 7, 1, KEYS, 5])?);
    assert!(rt; !is_file(heap, &[258, 7, 1, 1, AMOUNTS])?);
    assert!(rt; !is_file(heap, &[258, 7, 2, 1, 5])?);
    assert!(rt; !is_file(heap, &[258, 7, 0])?);
    assert!(rt; !is_file(heap, &[258, 7, 1, 1, 5, 0])?);
    Ok(())
}

// The numbers of a file of so many rows, without their sum.
fn numbers_of(heap: Global, count: u64) -> Result<Vec<u64>, AllocError> {
    let mut numbers = Vec::new(heap);
    numbers.extend_from_slice(&[258, 7, count])?;
    for i in 0..count {
        numbers.push(i & 0xff)?;
        numbers.push(1)?;
    }
    Ok(numbers)
}

// Whether the rows among these numbers are written as the file that the numbers are.
fn is_written(heap: Global, numbers: &[u64]) -> Result<bool, AllocError> {
    let bytes = sealed(heap, numbers)?;
    let mut memory = vec![in heap; 0xaa; bytes.len()]?;
    if numbers.len() < 3 {
        return Ok(false);
    }
    let written = write_file(258, 7, &numbers[3..], memory.as_mut_slice());
    Ok(written.is_some() && memory.as_slice() == bytes.as_slice())
}

#[test]
fn a_file_has_at_most_65536_rows(rt: HostRuntime) -> Result<(), Fail> {
    let heap = rt.alloc();
    let most = numbers_of(heap, 65536)?;
    assert!(rt; is_file(heap, most.as_slice())?);
    assert!(rt; is_written(heap, most.as_slice())?);
    let above = numbers_of(heap, 65537)?;
    assert!(rt; !is_file(heap, above.as_slice())?);
    assert!(rt; !is_written(heap, above.as_slice())?);
    Ok(())
}

// The entry that ENTRY is.
fn raise(heap: Global) -> Result<Entry, AllocError> {
    let mut adds = Vec::new(heap);
    adds.push(Added {
        number: 5,
        keys: span(1, 70000),
    })?;
    let mut takes = Vec::new(heap);
    takes.push(3)?;
    Ok(Entry {
        place: 2,
        writer: 11,
        serial: 300,
        change: Change {
            action: Action::Raise(span(4, 9), 100),
            touched: 1,
            adds,
            takes,
        },
    })
}

#[test]
fn an_entry_reads_as_what_it_says(rt: HostRuntime) -> Result<(), Fail> {
    let Some(entry) = read_entry(rt.alloc(), ENTRY)? else {
        return Err(Fail::new("no entry"));
    };
    assert_eq!(rt; entry.place, 2);
    assert_eq!(rt; entry.writer, 11);
    assert_eq!(rt; entry.serial, 300);
    assert_eq!(rt; entry.change.action, Action::Raise(span(4, 9), 100));
    assert_eq!(rt; entry.change.touched, 1);
    assert!(rt;
        entry.change.adds.as_slice()
            == [Added {
                number: 5,
                keys: span(1, 70000),
            }]
            .as_slice()
    );
    assert!(rt; entry.change.takes.as_slice() == [3].as_slice());
    Ok(())
}

#[test]
fn an_entry_is_written_as_its_bytes_and_no_others(rt: HostRuntime) -> Result<(), Fail> {
    let entry = raise(rt.alloc())?;
    let before = [0xaa; 136];
    let mut memory = before;
    assert_eq!(rt; entry_length(&entry), Some(120));
    assert_eq!(rt; write_entry(&entry, &mut memory), Some(120));
    assert!(rt; holds(&memory, &before, 0, ENTRY));
    Ok(())
}

// Whether a write of the entry to the first bytes of memory, so many of them, is none.
fn refuses_entry(entry: &Entry, memory: &mut [u8], room: usize) -> bool {
    room <= memory.len() && write_entry(entry, &mut memory[..room]).is_none()
}

// Whether a write of the entry to so many bytes is none and changes nothing.
fn entry_is_not_written(entry: &Entry, room: usize) -> bool {
    let before = [0xaa; 136];
    let mut memory = before;
    refuses_entry(entry, &mut memory, room) && holds(&memory, &before, 0, &[])
}

#[test]
fn what_is_no_entry_is_not_written(rt: HostRuntime) -> Result<(), Fail> {
    let mut entry = raise(rt.alloc())?;
    assert!(rt; !entry_is_not_written(&entry, 120));
    assert!(rt; entry_is_not_written(&entry, 119));
    assert!(rt; entry_is_not_written(&entry, 0));
    entry.writer = 16;
    assert!(rt; entry_is_not_written(&entry, 136));
    assert_eq!(rt; entry_length(&entry), None);
    entry.writer = 15;
    assert!(rt; !entry_is_not_written(&entry, 136));
    entry.change.adds.push(Added {
        number: 6,
        keys: span(9, 8),
    })?;
    assert!(rt; entry_is_not_written(&entry, 136));
    assert_eq!(rt; entry_length(&entry), None);
    Ok(())
}

// Whether bytes are an entry.
fn is_entry(heap: Global, bytes: &[u8]) -> Result<bool, Refusal> {
    let entry = read_entry(heap, bytes)?;
    Ok(entry.is_some())
}

// Whether the entry is none once the number at a place is one more, and once it is one less. Each time only the lowest byte of the number changes.
fn changed_entry_is_none(heap: Global, k: usize) -> Result<bool, Refusal> {
    let mut more = *ENTRY;
    let mut less = *ENTRY;
    if k >= 15 {
        return Ok(false);
    }
    more[8 * k] = more[8 * k].wrapping_add(1);
    less[8 * k] = less[8 * k].wrapping_sub(1);
    Ok(!is_entry(heap, &more)? && !is_entry(heap, &less)?)
}

#[test]
fn an_entry_with_a_number_changed_by_one_is_none(rt: HostRuntime) -> Result<(), Fail> {
    for k in 0..15 {
        assert!(rt; changed_entry_is_none(rt.alloc(), k)?);
    }
    Ok(())
}

#[test]
fn an_entry_that_is_cut_short_or_longer_is_none(rt: HostRuntime) -> Result<(), Fail> {
    let heap = rt.alloc();
    let mut longer = [0; 128];
    longer[..120].copy_from_slice(ENTRY);
    assert!(rt; is_entry(heap, &longer[..120])?);
    assert!(rt; !is_entry(heap, &longer)?);
    assert!(rt; !is_entry(heap, &longer[..121])?);
    assert!(rt; !is_entry(heap, &ENTRY[..119])?);
    assert!(rt; !is_entry(heap, &ENTRY[..112])?);
    assert!(rt; !is_entry(heap, &[])?);
    Ok(())
}

// Whether an entry without files, of this writer and these four numbers of an order, is one; its sum is right.
fn is_order(heap: Global, writer: u64, order: [u64; 4]) -> Result<bool, Refusal> {
    let [kind, a, b, c] = order;
    let bytes = sealed(heap, &[0, writer, 0, kind, a, b, c, 0, 0, 0])?;
    is_entry(heap, bytes.as_slice())
}

#[test]
fn an_order_out_of_its_bounds_is_none(rt: HostRuntime) -> Result<(), Fail> {
    let heap = rt.alloc();
    assert!(rt; is_order(heap, 15, [0, 0, 0, 0])?);
    assert!(rt; is_order(heap, 0, [2, KEYS - 1, 0, KEYS - 1])?);
    assert!(rt; is_order(heap, 0, [3, u64::MAX, 0, 0])?);
    assert!(rt; !is_order(heap, 16, [0, 0, 0, 0])?);
    assert!(rt; !is_order(heap, 0, [4, 0, 0, 0])?);
    assert!(rt; !is_order(heap, 0, [1, 0, KEYS, 0])?);
    assert!(rt; !is_order(heap, 0, [2, 0, 0, KEYS])?);
    Ok(())
}

#[test]
fn an_unused_number_of_an_order_is_0(rt: HostRuntime) -> Result<(), Fail> {
    let heap = rt.alloc();
    assert!(rt; !is_order(heap, 0, [0, 1, 0, 0])?);
    assert!(rt; !is_order(heap, 0, [0, 0, 1, 0])?);
    assert!(rt; !is_order(heap, 0, [0, 0, 0, 1])?);
    assert!(rt; !is_order(heap, 0, [1, 4, 9, 1])?);
    assert!(rt; !is_order(heap, 0, [3, 4, 1, 0])?);
    assert!(rt; !is_order(heap, 0, [3, 4, 0, 1])?);
    Ok(())
}

// Whether an entry that adds a file with these numbers and takes another is one; its sum is right.
fn is_exchange(heap: Global, added: [u64; 3], taken: u64) -> Result<bool, Refusal> {
    let [number, from, to] = added;
    let bytes = sealed(
        heap,
        &[0, 0, 0, 0, 0, 0, 0, 0, 1, 1, number, from, to, taken],
    )?;
    is_entry(heap, bytes.as_slice())
}

#[test]
fn files_of_an_entry_out_of_their_bounds_are_none(rt: HostRuntime) -> Result<(), Fail> {
    let heap = rt.alloc();
    assert!(rt; is_exchange(heap, [KEYS - 1, KEYS - 1, KEYS - 1], KEYS - 1)?);
    assert!(rt; !is_exchange(heap, [KEYS, 1, 9], 3)?);
    assert!(rt; !is_exchange(heap, [5, 1, KEYS], 3)?);
    assert!(rt; !is_exchange(heap, [5, 9, 8], 3)?);
    assert!(rt; !is_exchange(heap, [5, 1, 9], KEYS)?);
    Ok(())
}

// Memory with the file, the file once more, what stays of it without its first row, and 0xaa behind them.
fn lent_files() -> [u8; 288] {
    let mut memory = [0xaa; 288];
    memory[..64].copy_from_slice(FILE);
    memory[64..128].copy_from_slice(FILE);
    memory[128..176].copy_from_slice(REST);
    memory
}

fn part(start: usize, length: usize) -> Part {
    Part { start, length }
}

// Whether the files in these parts, written anew as file 259 by a writer that began at 8, are just these bytes with keys in this span, and all else is as it
// was.
fn is_rewritten(rt: &impl Abort, sources: &[Part], rewrite: Rewrite, bytes: &[u8], keys: Span) {
    let before = lent_files();
    let mut memory = before;
    assert_eq!(rt;
        rewrite_files(&mut memory, sources, rewrite, part(177, 111), 259, 8),
        Some(Written {
            length: bytes.len(),
            keys,
        })
    );
    assert!(rt; holds(&memory, &before, 177, bytes));
}

#[test]
fn rows_outside_a_span_are_written_anew(rt: HostRuntime) {
    let file = [part(0, 64)];
    let keys = span(70000, 70000);
    is_rewritten(&rt, &file, Rewrite::Outside(span(1, 1)), REST, keys);
    is_rewritten(&rt, &file, Rewrite::Outside(span(0, 69999)), REST, keys);
}

#[test]
fn rows_are_raised_as_they_are_written_anew(rt: HostRuntime) -> Result<(), Fail> {
    let file = [part(64, 64)];
    let keys = span(1, 70000);
    let one = sealed(rt.alloc(), &[259, 8, 2, 1, 15, 70000, 1000000])?;
    is_rewritten(
        &rt,
        &file,
        Rewrite::Raised(span(0, 1), 10),
        one.as_slice(),
        keys,
    );
    let both = sealed(rt.alloc(), &[259, 8, 2, 1, 15, 70000, 1000010])?;
    is_rewritten(
        &rt,
        &file,
        Rewrite::Raised(span(1, 70000), 10),
        both.as_slice(),
        keys,
    );
    Ok(())
}

#[test]
fn several_files_are_written_one_behind_the_other(rt: HostRuntime) -> Result<(), Fail> {
    let keys = span(1, 70000);
    let twice = sealed(
        rt.alloc(),
        &[259, 8, 4, 1, 5, 70000, 1000000, 1, 5, 70000, 1000000],
    )?;
    is_rewritten(
        &rt,
        &[part(0, 64), part(64, 64)],
        Rewrite::Whole,
        twice.as_slice(),
        keys,
    );
    let turned = sealed(
        rt.alloc(),
        &[259, 8, 3, 70000, 1000000, 1, 5, 70000, 1000000],
    )?;
    is_rewritten(
        &rt,
        &[part(128, 48), part(0, 64)],
        Rewrite::Whole,
        turned.as_slice(),
        keys,
    );
    Ok(())
}

// Whether nothing of the files in these parts is written to the target, and nothing changes.
fn is_not_rewritten(sources: &[Part], rewrite: Rewrite, target: Part) -> bool {
    let before = lent_files();
    let mut memory = before;
    rewrite_files(&mut memory, sources, rewrite, target, 259, 8).is_none()
        && holds(&memory, &before, 0, &[])
}

#[test]
fn a_target_that_is_too_small_or_not_apart_is_left(rt: HostRuntime) {
    let file = [part(0, 64)];
    let both = [part(0, 64), part(64, 64)];
    assert!(rt; !is_not_rewritten(&file, Rewrite::Whole, part(176, 64)));
    assert!(rt; is_not_rewritten(&file, Rewrite::Whole, part(176, 63)));
    assert!(rt; is_not_rewritten(&file, Rewrite::Whole, part(176, 113)));
    assert!(rt; is_not_rewritten(&file, Rewrite::Whole, part(usize::MAX, 64)));
    assert!(rt; is_not_rewritten(&file, Rewrite::Whole, part(63, 65)));
    assert!(rt; is_not_rewritten(&file, Rewrite::Whole, part(0, 64)));
    assert!(rt; is_not_rewritten(&both, Rewrite::Whole, part(127, 129)));
    assert!(rt; !is_not_rewritten(&both, Rewrite::Whole, part(128, 96)));
}

#[test]
fn what_is_no_file_is_not_written_anew(rt: HostRuntime) {
    let target = part(176, 112);
    assert!(rt; is_not_rewritten(&[part(0, 56)], Rewrite::Whole, target));
    assert!(rt; is_not_rewritten(&[part(8, 64)], Rewrite::Whole, target));
    assert!(rt; is_not_rewritten(&[part(usize::MAX, 64)], Rewrite::Whole, target));
    assert!(rt; is_not_rewritten(&[part(0, 64), part(64, 56)], Rewrite::Whole, target));
    assert!(rt; is_not_rewritten(&[], Rewrite::Whole, target));
    assert!(rt; is_not_rewritten(&[part(0, 64)], Rewrite::Outside(span(1, 70000)), target));
}

// Memory with a file of 64 bytes at its front, and 0xaa behind it.
fn memory_with(file: &[u8]) -> [u8; 160] {
    let mut memory = [0xaa; 160];
    if file.len() == 64 {
        memory[..64].copy_from_slice(file);
    }
    memory
}

// Whether a raise of all rows of the file at the front by so much is none and changes nothing.
fn is_not_raised(file: &[u8], by: u32) -> bool {
    let before = memory_with(file);
    let mut memory = before;
    let rewrite = Rewrite::Raised(span(0, u32::MAX), by);
    rewrite_files(&mut memory, &[part(0, 64)], rewrite, part(64, 96), 259, 8).is_none()
        && holds(&memory, &before, 0, &[])
}

#[test]
fn an_amount_that_would_be_too_large_is_not_written_anew(rt: HostRuntime) -> Result<(), Fail> {
    let file = sealed(rt.alloc(), &[258, 7, 2, 1, 5, 70000, AMOUNTS - 10])?;
    assert!(rt; !is_not_raised(file.as_slice(), 9));
    assert!(rt; is_not_raised(file.as_slice(), 10));
    Ok(())
}
