// What a span finds in the files of a version.
ghost use Rattle.std.specs.Prelude.{◌≡◌};
ghost use Rattle.rows.specs.Refusals.{UnlessOut};
ghost use Rattle.store.specs.Memory.{files_in};
ghost use Rattle.store.specs.Slots.{items_of};
ghost use Rattle.versions.specs.Previews.{previews};

use crate::held::Held;
use rows::refusal::Refusal;
use rows::span::Span;
use std::alloc::Global;
use store::Store;
use store::files::Stored;
use store::memory::FileMemory;

// A file with a key in the span: how many of its rows are in the span, and how many stay when those go.
#[derive(Clone, Copy)]
pub struct Preview {
    pub file: Stored,
    pub inside: usize,
    pub stays: usize,
}

// The files that hold a key in the span, in their order; the first that is missing or damaged is told.
pub fn files_in_span(
    heap: Global,
    store: &Store,
    files: FileMemory<'_>,
    numbers: &[u32],
    span: Span,
) -> Result<Vec<Preview>, Refusal>
    ensures { UnlessOut result (items_of result ≡ previews (files_in store.now files.entry) span numbers.now) }
{
    let mut found = Vec::new(heap);
    for number in numbers {
        let held = Held::find(store, files, *number)?;
        let inside = held.count_inside(span);
        if inside > 0 {
            found.push(Preview {
                file: held.file,
                inside,
                stays: held.file.head.count - inside,
            })?;
        }
    }
    Ok(found)
}
