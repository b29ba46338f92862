// Files and entries as bytes.
#![tactic(auto)]

ghost use Rattle.codec.specs.EntryLaws.{EntriesComeBack, EntriesAreOne};
ghost use Rattle.codec.specs.FileLaws.{FilesComeBack, FilesAreOne, RowsAreThere, KeysAreTheEnds};

pub mod action;
pub mod entry;
pub mod file;
pub mod rewrite;
mod seal;
pub mod words;
pub mod write;

// What is written of an entry in its bounds reads as that entry.
pub fn entries_come_back()
    ensures { EntriesComeBack }
{}

// Whatever reads as an entry is just what is written of it.
pub fn entries_are_one()
    ensures { EntriesAreOne }
{}

// What is written of a file in its bounds reads as that file.
pub fn files_come_back()
    ensures { FilesComeBack }
{}

// Whatever reads as a file is just what is written of it.
pub fn files_are_one()
    ensures { FilesAreOne }
{}

// The rows of a file are found where they lie, and no others.
pub fn rows_are_there()
    ensures { RowsAreThere }
{}

// Every key of some rows lies between their keys, and no smaller span has them all.
pub fn keys_are_the_ends()
    ensures { KeysAreTheEnds }
{}
