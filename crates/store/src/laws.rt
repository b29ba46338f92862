// What is promised of a store.
ghost use Rattle.store.specs.StoreLaws.{WhatIsPutIsFound, OtherFilesStay, WhatIsDeletedIsGone, EntriesNeverChange, WhatIsOpenedIsEmpty, WhatIsRefusedChangesNothing, ATakenNumberIsRefused, WhatIsWrittenOutReadsIn, AsMuchMemoryHasRoom, WhatHoldsTheSameAnswersAlike};

// A file that was put is found under the number that was next, with its bytes.
pub fn what_is_put_is_found()
    ensures { WhatIsPutIsFound }
{}

// A put leaves the files of all other numbers as they were.
pub fn other_files_stay()
    ensures { OtherFilesStay }
{}

// A deleted file is gone, and no other.
pub fn what_is_deleted_is_gone()
    ensures { WhatIsDeletedIsGone }
{}

// An entry that was put is found, and the entries before it are as they were.
pub fn entries_never_change()
    ensures { EntriesNeverChange }
{}

// A store that was opened has no files and no entries.
pub fn what_is_opened_is_empty()
    ensures { WhatIsOpenedIsEmpty }
{}

// A file or an entry that is not put leaves everything as it was.
pub fn what_is_refused_changes_nothing()
    ensures { WhatIsRefusedChangesNothing }
{}

// No file is put under a number that some slot bears.
pub fn a_taken_number_is_refused()
    ensures { ATakenNumberIsRefused }
{}

// What was written out is read in as a store with the same numbers, files and entries.
pub fn what_is_written_out_reads_in()
    ensures { WhatIsWrittenOutReadsIn }
{}

// Memory as large as that of the store has room for what is read in.
pub fn as_much_memory_has_room()
    ensures { AsMuchMemoryHasRoom }
{}

// Stores that hold the same files and entries have the same numbers, files and entries to be found.
pub fn what_holds_the_same_answers_alike()
    ensures { WhatHoldsTheSameAnswersAlike }
{}
