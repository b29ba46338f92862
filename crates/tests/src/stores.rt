// Stores: full slots, deleted files, entries of the log, and memory that is damaged.
ghost use Rattle.std.specs.Prelude.{◌≡◌};
ghost use Rattle.codec.specs.Entries.{entry_of};
ghost use Rattle.store.specs.Log.{log_of, put_entry};
ghost use Rattle.store.specs.Putting.{files_of, put_rows};

use crate::given::span;
use codec::action::Action;
use codec::entry::{Added, Change, Entry};
use codec::file::Head;
use codec::rewrite::{Part, Rewrite};
use rows::refusal::Refusal;
use rows::span::Span;
use std::alloc::{AllocError, Global};
use std::process::Abort;
use std::test::Fail;
use store::Store;
use store::memory::{FileMemory, FileMemoryMut, LogMemory, LogMemoryMut};
use store::unput::Unput;
use store::unread::Unread;

// What is told of a file with these keys that was put.
fn added(number: u32, keys: Span) -> Result<Added, Unput> {
    Ok(Added { number, keys })
}

fn no_room(left: u64) -> Unput {
    Unput::Refused(Refusal::NoRoom(left))
}

// The bytes of numbers.
fn bytes_of(heap: Global, numbers: &[u64]) -> Result<Vec<u8>, AllocError> {
    let mut bytes = Vec::new(heap);
    for number in numbers {
        bytes.extend_from_slice(&number.to_le_bytes())?;
    }
    Ok(bytes)
}

// The first bytes, so many of them, or all if there are fewer.
fn front(bytes: &[u8], count: usize) -> &[u8] {
    if count > bytes.len() {
        return bytes;
    }
    &bytes[..count]
}

// The memory of files, lent to be read. Tests hold its slices apart, since they also write to them and look at them.
fn files_in<'a>(directory: &'a [u64], bytes: &'a [u8]) -> FileMemory<'a> {
    FileMemory { directory, bytes }
}

// The memory of entries, lent to be read.
fn log_in<'a>(ends: &'a [u64], bytes: &'a [u8]) -> LogMemory<'a> {
    LogMemory { ends, bytes }
}

// Puts a file of lent rows, whose writer began at version 7. What is promised of lent memory is promised of the slices that it was lent from.
fn put_rows(
    store: &mut Store,
    directory: &mut [u64],
    bytes: &mut [u8],
    lent: &[u64],
) -> Result<Added, Unput>
    ensures { (result, files_of store.new directory.new bytes.new) ≡ put_rows 7 lent.now (files_of store.old directory.old bytes.old) }
{
    store.put_rows(&mut FileMemoryMut { directory, bytes }, 7, lent)
}

// Puts the rows of the first file anew, whose writer began at version 8.
fn put_rewritten(
    store: &mut Store,
    directory: &mut [u64],
    bytes: &mut [u8],
    rewrite: Rewrite,
) -> Result<Added, Unput> {
    store.put_rewritten(
        &mut FileMemoryMut { directory, bytes },
        8,
        &[FIRST],
        rewrite,
    )
}

fn put_entry(
    store: &mut Store,
    ends: &mut [u64],
    bytes: &mut [u8],
    entry: &Entry,
) -> Result<u64, Unput>
    ensures { (result, log_of store.new ends.new bytes.new) ≡ put_entry (entry_of entry.now) (log_of store.old ends.old bytes.old) }
{
    store.put_entry(&mut LogMemoryMut { ends, bytes }, entry)
}

// A store with horizon 8 that files of one row were put into, under the numbers 0 and 1. A slot has 8 * (4 + 2 * 1) = 48 bytes.
fn two_files(rt: &impl Abort, directory: &mut [u64], files: &mut [u8]) -> Result<Store, Fail> {
    let mut store = Store::open(directory, 8, 1)?;
    assert_eq!(rt;
        put_rows(&mut store, directory, files, &[1, 5]),
        added(0, span(1, 1))
    );
    assert_eq!(rt;
        put_rows(&mut store, directory, files, &[2, 6]),
        added(1, span(2, 2))
    );
    Ok(store)
}

#[test]
fn slots_fill_to_the_last(rt: HostRuntime) -> Result<(), Fail> {
    let mut directory = [9; 4];
    let mut files = [0xaa; 96];
    let mut store = Store::open(&mut directory, 8, 1)?;
    assert_eq!(rt; store.room(files_in(&directory, &files)), 2);
    assert_eq!(rt;
        put_rows(&mut store, &mut directory, &mut files, &[1, 5]),
        added(0, span(1, 1))
    );
    assert_eq!(rt; store.room(files_in(&directory, &files)), 1);
    assert_eq!(rt;
        put_rows(&mut store, &mut directory, &mut files, &[2, 6]),
        added(1, span(2, 2))
    );
    assert_eq!(rt; store.room(files_in(&directory, &files)), 0);
    assert_eq!(rt;
        put_rows(&mut store, &mut directory, &mut files, &[3, 7]),
        Err(no_room(0))
    );
    assert_eq!(rt; store.next(), 2);
    Ok(())
}

#[test]
fn a_deleted_number_never_comes_back(rt: HostRuntime) -> Result<(), Fail> {
    let mut directory = [9; 4];
    let mut files = [0xaa; 96];
    let mut store = two_files(&rt, &mut directory, &mut files)?;
    store.delete(&mut directory, &files, 0);
    assert!(rt; store.file(files_in(&directory, &files), 0).is_none());
    assert_eq!(rt; store.room(files_in(&directory, &files)), 1);
    assert!(rt;
        store
            .files(rt.alloc(), files_in(&directory, &files))?
            .as_slice()
            == [1].as_slice()
    );
    assert_eq!(rt;
        put_rows(&mut store, &mut directory, &mut files, &[3, 7]),
        added(2, span(3, 3))
    );
    assert!(rt; &directory[..] == [3, 48, 2, 48].as_slice());
    assert!(rt;
        store
            .files(rt.alloc(), files_in(&directory, &files))?
            .as_slice()
            == [2, 1].as_slice()
    );
    Ok(())
}

#[test]
fn the_newest_file_deleted_leaves_its_number_behind(rt: HostRuntime) -> Result<(), Fail> {
    let mut directory = [9; 4];
    let mut files = [0xaa; 96];
    let mut store = two_files(&rt, &mut directory, &mut files)?;
    store.delete(&mut directory, &files, 1);
    store.delete(&mut directory, &files, 5);
    assert_eq!(rt;
        put_rows(&mut store, &mut directory, &mut files, &[3, 7]),
        added(2, span(3, 3))
    );
    assert!(rt; &directory[..] == [1, 48, 3, 48].as_slice());
    Ok(())
}

#[test]
fn a_file_is_found_by_its_number(rt: HostRuntime) -> Result<(), Fail> {
    let mut directory = [9; 4];
    let mut files = [0xaa; 96];
    let store = two_files(&rt, &mut directory, &mut files)?;
    let Some(found) = store.file(files_in(&directory, &files), 1) else {
        return Err(Fail::new("no file"));
    };
    assert_eq!(rt;
        found.part,
        Part {
            start: 48,
            length: 48,
        }
    );
    assert_eq!(rt;
        found.head,
        Head {
            number: 1,
            began: 7,
            count: 1,
        }
    );
    assert!(rt; store.file(files_in(&directory, &files), 0).is_some());
    assert!(rt; store.file(files_in(&directory, &files), 2).is_none());
    assert!(rt; store.file(files_in(&directory, &files), u32::MAX).is_none());
    Ok(())
}

#[test]
fn numbers_end_below_2_to_the_32(rt: HostRuntime) -> Result<(), Fail> {
    let mut directory = [0; 4];
    let mut files = [0xaa; 96];
    let mut store = Store::reopen(8, 4294967295, 0, 1)?;
    assert_eq!(rt; store.room(files_in(&directory, &files)), 1);
    assert_eq!(rt;
        put_rows(&mut store, &mut directory, &mut files, &[1, 5]),
        added(4294967295, span(1, 1))
    );
    assert_eq!(rt; store.room(files_in(&directory, &files)), 0);
    assert_eq!(rt;
        put_rows(&mut store, &mut directory, &mut files, &[2, 6]),
        Err(no_room(0))
    );
    Ok(())
}

// A store whose files have two rows at most, in slots of 8 * (4 + 2 * 2) = 64 bytes, with one file.
fn one_file(rt: &impl Abort, directory: &mut [u64], files: &mut [u8]) -> Result<Store, Fail> {
    let mut store = Store::open(directory, 8, 2)?;
    assert_eq!(rt;
        put_rows(&mut store, directory, files, &[1, 5, 70000, 1000000]),
        added(0, span(1, 70000))
    );
    Ok(store)
}

const FIRST: Part = Part {
    start: 0,
    length: 64,
};

#[test]
fn a_file_is_written_anew_without_its_erased_rows(rt: HostRuntime) -> Result<(), Fail> {
    let mut directory = [9; 4];
    let mut files = [0xaa; 128];
    let mut store = one_file(&rt, &mut directory, &mut files)?;
    let erase = Rewrite::Outside(span(0, 1));
    assert_eq!(rt;
        put_rewritten(&mut store, &mut directory, &mut files, erase),
        added(1, span(70000, 70000))
    );
    assert!(rt; &directory[..] == [1, 64, 2, 48].as_slice());
    let rest = bytes_of(rt.alloc(), &[1, 8, 1, 70000, 1000000, 1070010])?;
    assert!(rt; &files[64..112] == rest.as_slice());
    assert!(rt; store.file(files_in(&directory, &files), 0).is_some());
    assert!(rt; store.file(files_in(&directory, &files), 1).is_some());
    Ok(())
}

#[test]
fn a_file_that_would_have_no_rows_is_not_put(rt: HostRuntime) -> Result<(), Fail> {
    let mut directory = [9; 4];
    let mut files = [0xaa; 128];
    let mut store = one_file(&rt, &mut directory, &mut files)?;
    let before = files;
    let erase = Rewrite::Outside(span(0, 70000));
    assert_eq!(rt;
        put_rewritten(&mut store, &mut directory, &mut files, erase),
        Err(Unput::OutOfBounds)
    );
    assert!(rt; &directory[..] == [1, 64, 0, 0].as_slice());
    assert!(rt; &files[..] == &before[..]);
    assert_eq!(rt; store.next(), 1);
    Ok(())
}

#[test]
fn more_rows_than_a_slot_has_room_for_change_nothing(rt: HostRuntime) -> Result<(), Fail> {
    let mut directory = [9; 4];
    let mut files = [0xaa; 96];
    let before = files;
    let mut store = Store::open(&mut directory, 8, 1)?;
    assert_eq!(rt;
        put_rows(&mut store, &mut directory, &mut files, &[1, 5, 2, 6]),
        Err(Unput::OutOfBounds)
    );
    assert!(rt; &directory[..] == [0, 0, 0, 0].as_slice());
    assert!(rt; &files[..] == &before[..]);
    assert_eq!(rt; store.next(), 0);
    Ok(())
}

#[test]
fn a_taken_number_is_not_put_again(rt: HostRuntime) -> Result<(), Fail> {
    let mut directory = [2, 48, 0, 0];
    let mut files = [0xaa; 96];
    let mut store = Store::reopen(8, 1, 0, 1)?;
    assert_eq!(rt;
        put_rows(&mut store, &mut directory, &mut files, &[1, 5]),
        Err(Unput::NumberTaken)
    );
    assert!(rt; &directory[..] == [2, 48, 0, 0].as_slice());
    Ok(())
}

// An insert that adds no files, which has 11 numbers: 88 bytes.
fn insert(heap: Global, place: u64, writer: u8) -> Entry {
    Entry {
        place,
        writer,
        serial: 300,
        change: Change {
            action: Action::Insert,
            touched: 1,
            adds: Vec::new(heap),
            takes: Vec::new(heap),
        },
    }
}

// A store whose log has the inserts of the writers 3 and 4.
fn two_entries(
    rt: &impl Abort,
    heap: Global,
    ends: &mut [u64],
    log: &mut [u8],
) -> Result<Store, Fail> {
    let mut store = Store::open(&mut [], 8, 1)?;
    assert_eq!(rt;
        put_entry(&mut store, ends, log, &insert(heap, 0, 3)),
        Ok(1)
    );
    assert_eq!(rt;
        put_entry(&mut store, ends, log, &insert(heap, 1, 4)),
        Ok(2)
    );
    Ok(store)
}

// The writer of the entry at a place, if there is one.
fn writer_at(
    heap: Global,
    store: Store,
    ends: &[u64],
    log: &[u8],
    place: u64,
) -> Result<Option<u8>, Refusal> {
    let Some(entry) = store.entry(heap, log_in(ends, log), place)? else {
        return Ok(None);
    };
    Ok(Some(entry.writer))
}

#[test]
fn entries_are_read_back_at_their_places(rt: HostRuntime) -> Result<(), Fail> {
    let heap = rt.alloc();
    let mut ends = [0; 2];
    let mut log = [0xaa; 176];
    let store = two_entries(&rt, heap, &mut ends, &mut log)?;
    assert_eq!(rt; store.entries(), 2);
    assert!(rt; &ends[..] == [88, 176].as_slice());
    assert_eq!(rt; writer_at(heap, store, &ends, &log, 0)?, Some(3));
    assert_eq!(rt; writer_at(heap, store, &ends, &log, 1)?, Some(4));
    assert_eq!(rt; writer_at(heap, store, &ends, &log, 2)?, None);
    assert_eq!(rt; writer_at(heap, store, &ends, &log, u64::MAX)?, None);
    Ok(())
}

// Whether a put of this entry is refused so, and changes nothing.
fn is_not_put(
    rt: &impl Abort,
    mut store: Store,
    ends: &mut [u64],
    log: &mut [u8],
    entry: &Entry,
    why: Unput,
) {
    let count = store.entries();
    assert_eq!(rt; put_entry(&mut store, ends, log, entry), Err(why));
    assert_eq!(rt; store.entries(), count);
}

#[test]
fn an_entry_out_of_its_place_or_bounds_is_not_put(rt: HostRuntime) -> Result<(), Fail> {
    let heap = rt.alloc();
    let mut ends = [9; 2];
    let mut log = [0xaa; 176];
    let before = log;
    let store = Store::reopen(8, 0, 0, 1)?;
    is_not_put(
        &rt,
        store,
        &mut ends,
        &mut log,
        &insert(heap, 1, 3),
        Unput::OtherPlace,
    );
    is_not_put(
        &rt,
        store,
        &mut ends,
        &mut log,
        &insert(heap, 0, 16),
        Unput::OutOfBounds,
    );
    let full = Store::reopen(8, 0, 65536, 1)?;
    let why = Unput::Refused(Refusal::LogFull);
    is_not_put(&rt, full, &mut ends, &mut log, &insert(heap, 65536, 3), why);
    assert!(rt; &ends[..] == [9, 9].as_slice());
    assert!(rt; &log[..] == &before[..]);
    Ok(())
}

#[test]
fn a_log_without_room_takes_no_entry(rt: HostRuntime) -> Result<(), Fail> {
    let heap = rt.alloc();
    let mut ends = [0; 3];
    let mut log = [0xaa; 264];
    let mut store = two_entries(&rt, heap, &mut ends, &mut log)?;
    let before = log;
    let third = insert(heap, 2, 5);
    is_not_put(
        &rt,
        store,
        &mut [88, 176, 0],
        &mut [0xaa; 263],
        &third,
        no_room(87),
    );
    is_not_put(&rt, store, &mut [88, 176], &mut log, &third, no_room(88));
    is_not_put(&rt, store, &mut [88], &mut log, &third, no_room(0));
    assert!(rt; &ends[..] == [88, 176, 0].as_slice());
    assert!(rt; &log[..] == &before[..]);
    assert_eq!(rt; put_entry(&mut store, &mut ends, &mut log, &third), Ok(3));
    Ok(())
}

#[test]
fn slices_that_are_too_short_have_no_slots(rt: HostRuntime) -> Result<(), Fail> {
    let heap = rt.alloc();
    let mut directory = [9; 4];
    let mut files = [0xaa; 96];
    let store = two_files(&rt, &mut directory, &mut files)?;
    assert!(rt; store.file(files_in(&[], &files), 0).is_none());
    assert!(rt; store.file(files_in(&directory[..1], &files), 0).is_none());
    assert!(rt; store.file(files_in(&directory, &[]), 0).is_none());
    assert!(rt;
        store
            .file(files_in(&directory, front(&files, 95)), 0)
            .is_some()
    );
    assert!(rt;
        store
            .file(files_in(&directory, front(&files, 95)), 1)
            .is_none()
    );
    assert!(rt; store.files(heap, files_in(&[], &files))?.as_slice() == [].as_slice());
    assert!(rt;
        store
            .files(heap, files_in(&directory[..3], &files))?
            .as_slice()
            == [0].as_slice()
    );
    assert!(rt;
        store
            .files(heap, files_in(&directory, front(&files, 95)))?
            .as_slice()
            == [0].as_slice()
    );
    assert_eq!(rt; store.room(files_in(&[], &files)), 0);
    assert_eq!(rt; store.room(files_in(&[0], &files)), 0);
    assert_eq!(rt; store.room(files_in(&[0, 0], &files)), 1);
    assert_eq!(rt; store.room(files_in(&[0, 0, 0, 0], front(&files, 95))), 1);
    assert_eq!(rt; store.room(files_in(&[0, 0], &[])), 0);
    Ok(())
}

#[test]
fn a_damaged_file_is_none(rt: HostRuntime) -> Result<(), Fail> {
    let mut directory = [9; 4];
    let mut files = [0xaa; 96];
    let store = two_files(&rt, &mut directory, &mut files)?;
    directory[1] = 49;
    assert!(rt; store.file(files_in(&directory, &files), 0).is_none());
    assert!(rt;
        store
            .files(rt.alloc(), files_in(&directory, &files))?
            .as_slice()
            == [0, 1].as_slice()
    );
    directory[1] = 40;
    assert!(rt; store.file(files_in(&directory, &files), 0).is_none());
    directory[1] = u64::MAX;
    assert!(rt; store.file(files_in(&directory, &files), 0).is_none());
    directory[0] = 5;
    directory[1] = 48;
    assert!(rt; store.file(files_in(&directory, &files), 0).is_none());
    assert!(rt; store.file(files_in(&directory, &files), 4).is_none());
    assert!(rt;
        store
            .files(rt.alloc(), files_in(&directory, &files))?
            .as_slice()
            == [4, 1].as_slice()
    );
    files[80] = 0;
    assert!(rt; store.file(files_in(&directory, &files), 1).is_none());
    assert_eq!(rt; store.room(files_in(&directory, &files)), 0);
    Ok(())
}

#[test]
fn a_damaged_entry_is_none(rt: HostRuntime) -> Result<(), Fail> {
    let heap = rt.alloc();
    let mut ends = [0; 2];
    let mut log = [0xaa; 176];
    let store = two_entries(&rt, heap, &mut ends, &mut log)?;
    assert_eq!(rt; writer_at(heap, store, &ends[..1], &log, 0)?, Some(3));
    assert_eq!(rt; writer_at(heap, store, &ends[..1], &log, 1)?, None);
    assert_eq!(rt; writer_at(heap, store, &[], &log, 0)?, None);
    assert_eq!(rt;
        writer_at(heap, store, &ends, front(&log, 175), 0)?,
        Some(3)
    );
    assert_eq!(rt; writer_at(heap, store, &ends, front(&log, 175), 1)?, None);
    assert_eq!(rt; writer_at(heap, store, &[88, 87], &log, 1)?, None);
    assert_eq!(rt; writer_at(heap, store, &[88, u64::MAX], &log, 1)?, None);
    assert_eq!(rt; writer_at(heap, store, &[0, 88], &log, 1)?, None);
    log[0] = 1;
    assert_eq!(rt; writer_at(heap, store, &ends, &log, 0)?, None);
    assert_eq!(rt; writer_at(heap, store, &ends, &log, 1)?, Some(4));
    Ok(())
}

// Why a store with these numbers cannot be opened again.
fn why_not(horizon: u64, next: u64, entries: u64, most_rows: u64) -> Option<Refusal> {
    Store::reopen(horizon, next, entries, most_rows).err()
}

#[test]
fn numbers_out_of_their_bounds_open_no_store(rt: HostRuntime) {
    assert_eq!(rt; why_not(4096, 4294967296, 65536, 65536), None);
    assert_eq!(rt; why_not(0, 0, 0, 1), None);
    assert_eq!(rt;
        why_not(4097, 0, 0, 1),
        Some(Refusal::HorizonTooLarge(4097))
    );
    assert_eq!(rt;
        why_not(4097, 0, 0, 0),
        Some(Refusal::HorizonTooLarge(4097))
    );
    assert_eq!(rt; why_not(8, 0, 0, 0), Some(Refusal::NoRoom(0)));
    assert_eq!(rt; why_not(8, 0, 0, 65537), Some(Refusal::NoRoom(0)));
    assert_eq!(rt; why_not(8, 4294967297, 0, 1), Some(Refusal::NoRoom(0)));
    assert_eq!(rt; why_not(8, 0, 65537, 1), Some(Refusal::LogFull));
}

#[test]
fn a_refused_opening_leaves_the_directory(rt: HostRuntime) {
    let mut directory = [9; 4];
    assert_eq!(rt;
        Store::open(&mut directory, 4097, 1).err(),
        Some(Refusal::HorizonTooLarge(4097))
    );
    assert_eq!(rt;
        Store::open(&mut directory, 8, 0).err(),
        Some(Refusal::NoRoom(0))
    );
    assert!(rt; &directory[..] == [9, 9, 9, 9].as_slice());
    assert!(rt; Store::open(&mut directory, 8, 1).is_ok());
    assert!(rt; &directory[..] == [0, 0, 0, 0].as_slice());
}

#[test]
fn an_empty_store_is_written_out_as_its_header(rt: HostRuntime) -> Result<(), Fail> {
    let heap = rt.alloc();
    let store = Store::reopen(8, 0, 0, 1)?;
    let out = store.write_out(heap, files_in(&[0, 0, 0, 0], &[0xaa; 96]), log_in(&[], &[]))?;
    assert!(rt; out.as_slice() == bytes_of(heap, &[8, 0, 1, 2, 0, 0, 11])?.as_slice());
    Ok(())
}

// A store with one file of two slots and one entry, written out: header, number and length of the file, the file, length of the entry, the entry.
const WHOLE: &[u64; 27] = &[
    8, 1, 1, 2, 1, 1, 14, 0, 48, 0, 7, 1, 1, 5, 14, 88, 0, 3, 300, 0, 0, 0, 0, 1, 0, 0, 304,
];

// The same where the length of the slot is too large and the log is too short.
const DAMAGED: &[u64; 10] = &[8, 1, 1, 2, 1, 1, 14, 0, 0, 0];

#[test]
fn a_store_is_written_out_with_what_it_holds(rt: HostRuntime) -> Result<(), Fail> {
    let heap = rt.alloc();
    let mut directory = [9; 4];
    let mut files = [0xaa; 96];
    let mut ends = [9; 2];
    let mut log = [0xaa; 100];
    let mut store = Store::open(&mut directory, 8, 1)?;
    assert_eq!(rt;
        put_rows(&mut store, &mut directory, &mut files, &[1, 5]),
        added(0, span(1, 1))
    );
    assert_eq!(rt;
        put_entry(&mut store, &mut ends, &mut log, &insert(heap, 0, 3)),
        Ok(1)
    );
    let out = store.write_out(heap, files_in(&directory, &files), log_in(&ends, &log))?;
    assert!(rt; out.as_slice() == bytes_of(heap, WHOLE)?.as_slice());
    directory[1] = 49;
    let damaged = store.write_out(
        heap,
        files_in(&directory, &files),
        log_in(&ends, front(&log, 87)),
    )?;
    assert!(rt; damaged.as_slice() == bytes_of(heap, DAMAGED)?.as_slice());
    Ok(())
}

#[test]
fn what_was_written_out_is_read_in(rt: HostRuntime) -> Result<(), Fail> {
    let heap = rt.alloc();
    let bytes = bytes_of(heap, WHOLE)?;
    let mut directory = [9; 4];
    let mut files = [0xaa; 96];
    let mut ends = [9; 2];
    let mut log = [0xaa; 100];
    let Ok(store) = Store::read_in(
        bytes.as_slice(),
        &mut FileMemoryMut {
            directory: &mut directory,
            bytes: &mut files,
        },
        &mut LogMemoryMut {
            ends: &mut ends,
            bytes: &mut log,
        },
    ) else {
        assert!(rt; false);
        return Ok(());
    };
    assert!(rt; &directory[..] == [1, 48, 0, 0].as_slice());
    assert!(rt; &ends[..] == [88, 9].as_slice());
    assert_eq!(rt; store.next(), 1);
    assert_eq!(rt; store.entries(), 1);
    let out = store.write_out(heap, files_in(&directory, &files), log_in(&ends, &log))?;
    assert!(rt; out.as_slice() == bytes.as_slice());
    Ok(())
}

// Why numbers are not read in, where the memory has two slots for files of one row, two places, and a log of eight bytes.
fn why_unread(heap: Global, numbers: &[u64]) -> Result<Option<Unread>, AllocError> {
    let bytes = bytes_of(heap, numbers)?;
    let mut directory = [9; 4];
    let mut files = [0xaa; 96];
    let mut ends = [9; 2];
    let mut log = [0xaa; 8];
    Ok(Store::read_in(
        bytes.as_slice(),
        &mut FileMemoryMut {
            directory: &mut directory,
            bytes: &mut files,
        },
        &mut LogMemoryMut {
            ends: &mut ends,
            bytes: &mut log,
        },
    )
    .err())
}

#[test]
fn a_header_that_is_none_says_at_which_byte(rt: HostRuntime) -> Result<(), Fail> {
    let heap = rt.alloc();
    assert_eq!(rt; why_unread(heap, &[8, 0, 1, 2, 0, 0, 11])?, None);
    assert_eq!(rt; why_unread(heap, &[8, 0])?, Some(Unread::At(16)));
    assert_eq!(rt;
        why_unread(heap, &[8, 0, 1, 2, 0, 0, 12])?,
        Some(Unread::At(48))
    );
    assert_eq!(rt;
        why_unread(heap, &[4097, 0, 1, 2, 0, 0, 4100])?,
        Some(Unread::At(0))
    );
    assert_eq!(rt;
        why_unread(heap, &[8, 4294967297, 1, 2, 0, 0, 4294967308])?,
        Some(Unread::At(8))
    );
    assert_eq!(rt;
        why_unread(heap, &[8, 0, 0, 2, 0, 0, 10])?,
        Some(Unread::At(16))
    );
    assert_eq!(rt;
        why_unread(heap, &[8, 0, 1, 2, 3, 0, 14])?,
        Some(Unread::At(32))
    );
    assert_eq!(rt;
        why_unread(heap, &[8, 0, 1, 2, 0, 65537, 65548])?,
        Some(Unread::At(40))
    );
    Ok(())
}

#[test]
fn a_body_that_is_none_says_at_which_byte(rt: HostRuntime) -> Result<(), Fail> {
    let heap = rt.alloc();
    assert_eq!(rt;
        why_unread(heap, &[8, 1, 1, 2, 1, 0, 13])?,
        Some(Unread::At(56))
    );
    assert_eq!(rt;
        why_unread(heap, &[8, 1, 1, 2, 1, 0, 13, 18446744073709551615, 0])?,
        Some(Unread::At(56))
    );
    assert_eq!(rt;
        why_unread(heap, &[8, 1, 1, 2, 1, 0, 13, 0, 49])?,
        Some(Unread::At(64))
    );
    assert_eq!(rt;
        why_unread(heap, &[8, 1, 1, 2, 1, 0, 13, 0, 48, 0])?,
        Some(Unread::At(80))
    );
    assert_eq!(rt;
        why_unread(heap, &[8, 0, 1, 2, 0, 1, 12, 8])?,
        Some(Unread::At(64))
    );
    assert_eq!(rt;
        why_unread(heap, &[8, 0, 1, 2, 0, 0, 11, 5])?,
        Some(Unread::At(56))
    );
    Ok(())
}

#[test]
fn memory_that_is_too_small_is_not_read_into(rt: HostRuntime) -> Result<(), Fail> {
    let heap = rt.alloc();
    assert_eq!(rt;
        why_unread(heap, &[8, 0, 1, 3, 0, 0, 12])?,
        Some(Unread::TooSmall)
    );
    assert_eq!(rt;
        why_unread(heap, &[8, 0, 1, 2, 0, 3, 14])?,
        Some(Unread::TooSmall)
    );
    assert_eq!(rt;
        why_unread(heap, &[8, 0, 1, 2, 0, 1, 12, 16, 0, 0])?,
        Some(Unread::TooSmall)
    );
    Ok(())
}
