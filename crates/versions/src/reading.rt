// The rows of a version, file by file.
ghost use Rattle.std.specs.Prelude.{◌≡◌};
ghost use Rattle.rows.specs.Refusals.{UnlessOut};
ghost use Rattle.store.specs.Memory.{files_in, log_in};
ghost use Rattle.store.specs.Slots.{items_of};
ghost use Rattle.versions.specs.FilesHeld.{rows_held};
ghost use Rattle.versions.specs.Reading.{rows_at};

use crate::held::Held;
use crate::history::History;
use crate::kept::is_kept;
use rows::refusal::Refusal;
use rows::row::Row;
use std::alloc::Global;
use store::Store;
use store::memory::{FileMemory, LogMemory};

// The rows of some files, one after the other; the first that is missing or damaged is told.
pub fn rows_of(
    heap: Global,
    store: &Store,
    files: FileMemory<'_>,
    numbers: &[u32],
) -> Result<Vec<Row>, Refusal>
    ensures { UnlessOut result (items_of result ≡ rows_held (files_in store.now files.entry) numbers.now) }
{
    let mut rows = Vec::new(heap);
    for number in numbers {
        let held = Held::find(store, files, *number)?;
        held.push_rows(&mut rows)?;
    }
    Ok(rows)
}

// The rows of a version that is kept. Its entries are opened first, then it is asked whether it is kept, then its files are opened.
pub fn read_version(
    heap: Global,
    store: &Store,
    files: FileMemory<'_>,
    log: LogMemory<'_>,
    version: u64,
) -> Result<Vec<Row>, Refusal>
    ensures { UnlessOut result (items_of result ≡ rows_at store.now.horizon (files_in store.now files.entry) (log_in store.now log.entry) version) }
{
    let history = History::open(heap, store, log, version)?;
    if !is_kept(store, version) {
        return Err(Refusal::NoSuchVersion(version));
    }
    let live = history.live(heap)?;
    rows_of(heap, store, files, &live)
}
