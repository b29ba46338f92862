// What is promised of writers together.
ghost use Rattle.writers.specs.WriterLaws.{Atomic, Serializable, AgainOnlyInConflict, AloneSucceeds, FirstPutCounts, InsertsNeverConflict, PacksChangeNoRows, PutsCanBeFound};

// An order is there whole or not at all, and once, with its count; a kept version has all its files and never changes.
pub fn atomic()
    ensures { Atomic }
{}

// The rows of every kept version are its orders done one after the other.
pub fn serializable()
    ensures { Serializable }
{}

// A writer is told again exactly if somebody was in its way or it took too long.
pub fn again_only_in_conflict()
    ensures { AgainOnlyInConflict }
{}

// A writer that nobody comes between begins, looks and puts.
pub fn alone_succeeds()
    ensures { AloneSucceeds }
{}

// The first to put of those that have looked is told its count.
pub fn first_put_counts()
    ensures { FirstPutCounts }
{}

// Nobody is in the way of inserting, but for time.
pub fn inserts_never_conflict()
    ensures { InsertsNeverConflict }
{}

// A pack changes no rows.
pub fn packs_change_no_rows()
    ensures { PacksChangeNoRows }
{}

// A program finds out from the log whether its put was done.
pub fn puts_can_be_found()
    ensures { PutsCanBeFound }
{}
