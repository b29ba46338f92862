// Versions: which files and which rows they have, in a table of four entries with an erase and a pack, worked out by hand.
use crate::given::span;
use codec::action::Action;
use codec::entry::{Added, Change, Entry};
use codec::rewrite::{Part, Rewrite};
use rows::refusal::Refusal;
use rows::row::Row;
use std::alloc::{AllocError, Global};
use std::process::Abort;
use std::test::Fail;
use store::Store;
use store::memory::{FileMemory, FileMemoryMut, LogMemory, LogMemoryMut};
use versions::history::History;
use versions::kept::is_kept;
use versions::preview::files_in_span;
use versions::reading::{read_version, rows_of};
use versions::sets::set_of;

// The memory of four files of three rows at most, in slots of 8 * (4 + 2 * 3) = 80 bytes, and of four entries, which have 14, 14, 15 and 16 numbers.
#[derive(Drop)]
struct Memory {
    directory: [u64; 8],
    files: [u8; 320],
    ends: [u64; 4],
    log: [u8; 472],
}

impl Memory {
    fn new() -> Memory {
        Memory {
            directory: [9; 8],
            files: [0xaa; 320],
            ends: [9; 4],
            log: [0xaa; 472],
        }
    }
}

// A change that adds one file.
fn change(
    heap: Global,
    action: Action,
    touched: u64,
    added: Added,
    takes: &[u32],
) -> Result<Change, AllocError> {
    let mut adds = Vec::new(heap);
    adds.push(added)?;
    Ok(Change {
        action,
        touched,
        adds,
        takes: Vec::from_slice(heap, takes)?,
    })
}

// Puts the entry of a writer behind the others.
fn enter(
    rt: &impl Abort,
    store: &mut Store,
    log: &mut LogMemoryMut<'_>,
    writer: u8,
    serial: u64,
    change: Change,
) {
    let place = store.entries();
    let entry = Entry {
        place,
        writer,
        serial,
        change,
    };
    assert!(rt; store.put_entry(log, &entry).is_ok());
}

// Where a file lies.
fn part_of(store: &Store, files: &FileMemoryMut<'_>, number: u32) -> Result<Part, Fail> {
    let Some(found) = store.file(files.view(), number) else {
        return Err(Fail::new("no file"));
    };
    Ok(found.part)
}

// Puts a file and tells it as an entry adds it.
fn put(store: &mut Store, files: &mut FileMemoryMut<'_>, lent: &[u64]) -> Result<Added, Fail> {
    let Ok(added) = store.put_rows(files, 0, lent) else {
        return Err(Fail::new("not put"));
    };
    Ok(added)
}

fn put_anew(
    store: &mut Store,
    files: &mut FileMemoryMut<'_>,
    sources: &[Part],
    rewrite: Rewrite,
) -> Result<Added, Fail> {
    let Ok(added) = store.put_rewritten(files, 0, sources, rewrite) else {
        return Err(Fail::new("not put"));
    };
    Ok(added)
}

// Writer 0 inserts 1:5 4:7 as file 0, writer 1 inserts 9:2 as file 1, writer 0 erases key 4, so that file 2 stands for file 0, and
// writer 2 packs files 1 and 2 into file 3. One version before the newest is kept.
fn filled(
    rt: &impl Abort,
    heap: Global,
    files: &mut FileMemoryMut<'_>,
    log: &mut LogMemoryMut<'_>,
) -> Result<Store, Fail> {
    let mut store = Store::open(files.directory, 1, 3)?;
    let first = put(&mut store, files, &[1, 5, 4, 7])?;
    enter(
        rt,
        &mut store,
        log,
        0,
        0,
        change(heap, Action::Insert, 2, first, &[])?,
    );
    let second = put(&mut store, files, &[9, 2])?;
    enter(
        rt,
        &mut store,
        log,
        1,
        0,
        change(heap, Action::Insert, 1, second, &[])?,
    );
    let erased = part_of(&store, files, 0)?;
    let rest = put_anew(&mut store, files, &[erased], Rewrite::Outside(span(4, 4)))?;
    enter(
        rt,
        &mut store,
        log,
        0,
        1,
        change(heap, Action::Erase(span(4, 4)), 1, rest, &[0])?,
    );
    let sources = [part_of(&store, files, 1)?, part_of(&store, files, 2)?];
    let packed = put_anew(&mut store, files, &sources, Rewrite::Whole)?;
    enter(
        rt,
        &mut store,
        log,
        2,
        0,
        change(heap, Action::Pack(2), 0, packed, &[1, 2])?,
    );
    Ok(store)
}

// The files of a version.
fn live_at(
    heap: Global,
    store: &Store,
    log: LogMemory<'_>,
    version: u64,
) -> Result<Vec<u32>, Refusal> {
    History::open(heap, store, log, version)?.live(heap)
}

fn row(key: u32, amount: u64) -> Row {
    Row { key, amount }
}

#[test]
fn a_version_has_the_files_that_were_added_and_not_taken(rt: HostRuntime) -> Result<(), Fail> {
    let heap = rt.alloc();
    let mut memory = Memory::new();
    let mut files = FileMemoryMut {
        directory: &mut memory.directory,
        bytes: &mut memory.files,
    };
    let mut log = LogMemoryMut {
        ends: &mut memory.ends,
        bytes: &mut memory.log,
    };
    let store = filled(&rt, heap, &mut files, &mut log)?;
    assert!(rt; live_at(heap, &store, log.view(), 0)?.as_slice() == [].as_slice());
    assert!(rt; live_at(heap, &store, log.view(), 1)?.as_slice() == [0].as_slice());
    assert!(rt; live_at(heap, &store, log.view(), 2)?.as_slice() == [0, 1].as_slice());
    assert!(rt; live_at(heap, &store, log.view(), 3)?.as_slice() == [1, 2].as_slice());
    assert!(rt; live_at(heap, &store, log.view(), 4)?.as_slice() == [3].as_slice());
    assert!(rt; live_at(heap, &store, log.view(), 9)?.as_slice() == [3].as_slice());
    Ok(())
}

#[test]
fn puts_are_counted_and_found_by_their_writer(rt: HostRuntime) -> Result<(), Fail> {
    let heap = rt.alloc();
    let mut memory = Memory::new();
    let mut files = FileMemoryMut {
        directory: &mut memory.directory,
        bytes: &mut memory.files,
    };
    let mut log = LogMemoryMut {
        ends: &mut memory.ends,
        bytes: &mut memory.log,
    };
    let store = filled(&rt, heap, &mut files, &mut log)?;
    let history = History::open(heap, &store, log.view(), 4)?;
    assert_eq!(rt; history.written_by(0), 2);
    assert_eq!(rt; history.written_by(2), 1);
    assert_eq!(rt; history.written_by(3), 0);
    assert_eq!(rt; history.find_put(0, 0), Some(0));
    assert_eq!(rt; history.find_put(0, 1), Some(2));
    assert_eq!(rt; history.find_put(0, 2), None);
    assert_eq!(rt; history.find_put(1, 0), Some(1));
    let before = History::open(heap, &store, log.view(), 2)?;
    assert_eq!(rt; before.written_by(0), 1);
    assert_eq!(rt; before.find_put(0, 1), None);
    Ok(())
}

#[test]
fn rows_are_read_of_versions_that_are_kept(rt: HostRuntime) -> Result<(), Fail> {
    let heap = rt.alloc();
    let mut memory = Memory::new();
    let mut files = FileMemoryMut {
        directory: &mut memory.directory,
        bytes: &mut memory.files,
    };
    let mut log = LogMemoryMut {
        ends: &mut memory.ends,
        bytes: &mut memory.log,
    };
    let store = filled(&rt, heap, &mut files, &mut log)?;
    assert!(rt; !is_kept(&store, 2));
    assert!(rt; is_kept(&store, 3));
    assert!(rt; is_kept(&store, 4));
    assert!(rt; !is_kept(&store, 5));
    let rows = [row(9, 2), row(1, 5)];
    for version in 3..5 {
        let read = read_version(heap, &store, files.view(), log.view(), version)?;
        assert!(rt; read.as_slice() == rows.as_slice());
    }
    for version in [0, 2, 5] {
        let read = read_version(heap, &store, files.view(), log.view(), version);
        assert_eq!(rt; read.err(), Some(Refusal::NoSuchVersion(version)));
    }
    let old = rows_of(heap, &store, files.view(), &[0, 1])?;
    assert!(rt; old.as_slice() == [row(1, 5), row(4, 7), row(9, 2)].as_slice());
    Ok(())
}

#[test]
fn what_is_damaged_is_told_in_its_order(rt: HostRuntime) -> Result<(), Fail> {
    let heap = rt.alloc();
    let Memory {
        mut directory,
        files: mut file_bytes,
        mut ends,
        log: mut log_bytes,
    } = Memory::new();
    let mut files = FileMemoryMut {
        directory: &mut directory,
        bytes: &mut file_bytes,
    };
    let mut log = LogMemoryMut {
        ends: &mut ends,
        bytes: &mut log_bytes,
    };
    let store = filled(&rt, heap, &mut files, &mut log)?;
    store.delete(&mut directory, &file_bytes, 2);
    let left = FileMemory {
        directory: &directory,
        bytes: &file_bytes,
    };
    let whole = LogMemory {
        ends: &ends,
        bytes: &log_bytes,
    };
    let missing = read_version(heap, &store, left, whole, 3);
    assert_eq!(rt; missing.err(), Some(Refusal::DamagedFile(2)));
    assert!(rt; read_version(heap, &store, left, whole, 4).is_ok());
    log_bytes[112] = 7;
    let damaged = LogMemory {
        ends: &ends,
        bytes: &log_bytes,
    };
    for version in [2, 3, 4, 5] {
        let read = read_version(heap, &store, left, damaged, version);
        assert_eq!(rt; read.err(), Some(Refusal::DamagedEntry(1)));
    }
    let above = read_version(heap, &store, left, damaged, 1);
    assert_eq!(rt; above.err(), Some(Refusal::NoSuchVersion(1)));
    Ok(())
}

#[test]
fn a_span_finds_the_files_that_hold_its_keys(rt: HostRuntime) -> Result<(), Fail> {
    let heap = rt.alloc();
    let mut memory = Memory::new();
    let mut files = FileMemoryMut {
        directory: &mut memory.directory,
        bytes: &mut memory.files,
    };
    let mut log = LogMemoryMut {
        ends: &mut memory.ends,
        bytes: &mut memory.log,
    };
    let store = filled(&rt, heap, &mut files, &mut log)?;
    let found = files_in_span(heap, &store, files.view(), &[0, 1, 3], span(2, 9))?;
    assert_eq!(rt; found.len(), 3);
    let mut told = Vec::new(heap);
    for preview in &found {
        told.push((preview.file.head.number, preview.inside, preview.stays))?;
    }
    assert!(rt; told.as_slice() == [(0, 1, 1), (1, 1, 0), (3, 1, 1)].as_slice());
    let none = files_in_span(heap, &store, files.view(), &[0, 2], span(5, 8))?;
    assert_eq!(rt; none.len(), 0);
    let missing = files_in_span(heap, &store, files.view(), &[0, 4], span(5, 8));
    assert_eq!(rt; missing.err(), Some(Refusal::DamagedFile(4)));
    Ok(())
}

#[test]
fn numbers_are_a_set(rt: HostRuntime) -> Result<(), Fail> {
    let set = set_of(rt.alloc(), &[5, 3, 5])?;
    assert_eq!(rt; set.len(), 2);
    assert!(rt; set.contains(&3) && set.contains(&5) && !set.contains(&4));
    Ok(())
}

#[test]
fn many_numbers_are_a_set(rt: HostRuntime) -> Result<(), Fail> {
    let mut numbers = Vec::new(rt.alloc());
    for i in 0..15_000u32 {
        numbers.push(i % 5_000)?;
    }
    let set = set_of(rt.alloc(), &numbers)?;
    assert_eq!(rt; set.len(), 5_000);
    assert!(rt; set.contains(&0) && set.contains(&4_999) && !set.contains(&5_000));
    Ok(())
}
