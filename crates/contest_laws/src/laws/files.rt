//! Files that are imported one after the other, and in one.
ghost use Rattle.contest_laws.specs.JoinedFiles.{CsvRowsJoin, FaultsJoin, ImportsJoin, ImportsPart};

/// Two files that are imported one after the other come to the same as both in one: as many records
/// add something, and the contest is the same.
pub fn imports_join()
    ensures { ImportsJoin }
{}

/// A file that is accepted is accepted in two parts too, one after the other.
pub fn imports_part()
    ensures { ImportsPart }
{}

/// A record that is at fault in one of two files is at fault in both in one, for the same cause.
pub fn faults_join()
    ensures { FaultsJoin }
{}

/// Two files of CSV are in one if the rows of the second are put below those of the first as they
/// are, where these end in a line's end that is no part of a field.
pub fn csv_rows_join()
    ensures { CsvRowsJoin }
{}
