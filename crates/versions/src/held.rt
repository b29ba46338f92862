// A file of the store where it lies.
ghost use Rattle.std.specs.Prelude.{◌≡◌, ◌++◌, Some, None, MatchResult};
ghost use Rattle.rows.specs.declared.refusal.Refusal.TheVariants.{OutOfMemory, DamagedFile};
ghost use Rattle.rows.specs.Rows.{many_within};
ghost use Rattle.codec.specs.Rewrites.{part_in, rows_in};
ghost use Rattle.store.specs.Memory.{files_in};
ghost use Rattle.store.specs.StoreLaws.{file_under};
ghost use Rattle.versions.specs.FilesHeld.{HasRows};

use codec::file::Rows;
use rows::refusal::Refusal;
use rows::row::Row;
use rows::span::Span;
use store::Store;
use store::files::Stored;
use store::memory::FileMemory;

#[derive(Clone, Copy)]
pub(crate) struct Held<'a> {
    pub file: Stored,
    bytes: &'a [u8],
    ghost whole: { HasRows bytes.now file.head.count },
}

impl<'a> Held<'a> {
    // The file under a number; one that is missing or damaged is told.
    pub(crate) fn find(
        store: &Store,
        memory: FileMemory<'a>,
        number: u32,
    ) -> Result<Held<'a>, Refusal>
        ensures { MatchResult result (λ held. (Some held.file ≡ file_under (files_in store.now memory.entry) number) × (held.bytes.now ≡ part_in held.file.part memory.entry.bytes.now)) (λ e. (None ≡ file_under (files_in store.now memory.entry) number) × (e ≡ DamagedFile number)) }
    {
        let file = store
            .file(memory, number)
            .ok_or(Refusal::DamagedFile(number as u64))?;
        let start = file.part.start;
        let end = start + file.part.length;
        Ok(Held {
            file,
            bytes: &memory.bytes[start..end],
        })
    }

    // Appends its rows.
    pub(crate) fn push_rows(&self, out: &mut Vec<Row>) -> Result<(), Refusal>
        ensures { MatchResult result (λ _. out.new.items ≡ out.old.items ++ rows_in self.now.bytes.now) (λ e. e ≡ OutOfMemory) }
    {
        out.extend(Rows::of(self.bytes))?;
        Ok(())
    }

    // How many of its rows have their key in the span.
    pub(crate) fn count_inside(&self, span: Span) -> usize
        ensures { result ≡ many_within span (rows_in self.now.bytes.now) }
    {
        Rows::of(self.bytes)
            .filter(|row| span.contains(row.key))
            .count()
    }
}
