// What is promised of versions and of plans.
ghost use Rattle.versions.specs.VersionLaws.{VersionsAreFixed, RowsAreOfTheirFiles, FilesStayUntilTaken, KeyRangesTell, PlanCarriesOver};

// The files of a version do not change when entries are put behind.
pub fn versions_are_fixed()
    ensures { VersionsAreFixed }
{}

// The rows of a version depend only on the files that it has.
pub fn rows_are_of_their_files()
    ensures { RowsAreOfTheirFiles }
{}

// A file stays in later versions until an entry takes it.
pub fn files_stay_until_taken()
    ensures { FilesStayUntilTaken }
{}

// The smallest and the largest key of a file tell of every row.
pub fn key_ranges_tell()
    ensures { KeyRangesTell }
{}

// A plan made at an older version does its order at a newer one, if nothing that came between is in conflict with it.
pub fn plan_carries_over()
    ensures { PlanCarriesOver }
{}
