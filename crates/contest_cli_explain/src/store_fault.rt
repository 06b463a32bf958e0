//! What is told of the file that keeps a contest, if it can't be had.

use crate::named_file::{reason_of, tell_of_file};
use crate::store_tables::{TablesFound, tables_found};
use contest_file_faults::Report;
use contest_store_tables::TableName;
use sqlite::{Connection, Error, ErrorCode, Unknown};
use std::alloc::AllocError;
use std::fs::{self, File};
use std::io::{self, Read};
use std::rt::Files;

/// With what each database of SQLite begins.
const MARK: &[u8; 16] = b"SQLite format 3\0";

/// Tells why the file at a path isn't had; `is_made` says whether the command would make it.
pub(crate) fn tell_store_fault(
    rt: &HostRuntime,
    path: &str,
    is_made: bool,
    report: &mut Report,
) -> Result<(), AllocError> {
    match fs::exists(rt, path) {
        Ok(true) => tell_standing(rt, path, report),
        Ok(false) => tell_of_file(path, missing(is_made), report),
        Err(error) => tell_of_file(path, reason_of(&error), report),
    }
}

fn missing(is_made: bool) -> &'static str {
    if is_made {
        "it can't be made. Its folder isn't there, or this user may not write into it"
    } else {
        "there is no such file. desk init makes one"
    }
}

// Tells of a path at which something is.
fn tell_standing(rt: &HostRuntime, path: &str, report: &mut Report) -> Result<(), AllocError> {
    match is_database(rt, path) {
        Ok(true) => tell_opening(rt, path, report),
        Ok(false) => tell_of_file(
            path,
            "it is no database of SQLite, so it keeps no contest",
            report,
        ),
        Err(error) => tell_of_file(path, reason_of(&error), report),
    }
}

// Whether a file begins as a database does. So does an empty one: what it keeps may be in its log.
fn is_database<F: Files>(files: &F, path: &str) -> io::Result<bool> {
    let mut file = File::open(files, path)?;
    let mut head = [0u8; 16];
    let count = file.read(&mut head)?;
    Ok(count == 0 || head == *MARK)
}

fn tell_opening(rt: &HostRuntime, path: &str, report: &mut Report) -> Result<(), AllocError> {
    match Connection::open_from(rt, path, false, Unknown) {
        Ok(conn) => {
            let found = tables_found(rt.alloc(), conn)?;
            tell_of_file(path, words_of(found), report)
        }
        Err((error, _)) => tell_of_file(path, words_of_error(&error), report),
    }
}

// Why a database isn't opened.
fn words_of_error(error: &Error) -> &'static str {
    match error {
        Error::SqliteFailure(ErrorCode::DatabaseBusy) => {
            "another program has it open, perhaps desk serve or sqlite3. Wait until that has ended"
        }
        Error::SqliteFailure(ErrorCode::CannotOpen) => {
            "it can't be opened to be read and written. This user may not write it or into its \
             folder, or its disk can't be written"
        }
        Error::SqliteFailure(ErrorCode::SystemIoFailure) => "its disk failed",
        Error::SqliteFailure(ErrorCode::DiskFull) => "its disk is full",
        Error::SqliteFailure(ErrorCode::OutOfMemory) => "there isn't memory enough to open it",
        Error::SqliteFailure(ErrorCode::NotADatabase) => {
            "its tables are none that a desk reads, or it is damaged. Go on from a copy"
        }
        _ => "it is damaged. Go on from a copy",
    }
}

// What the tables of a database say of it.
fn words_of(found: TablesFound) -> &'static str {
    match found {
        TablesFound::Bare => "it has no tables. desk init makes a contest in it",
        TablesFound::Foreign => {
            "its tables aren't those of a desk. It is another program's, or somebody added or \
             took out a table, a column or an index"
        }
        TablesFound::Lacking => {
            "it lacks a table, or is a damaged one of the first schema. Go on from a copy"
        }
        TablesFound::Celless => "its table cells was taken out, and the others can't be read so",
        TablesFound::Unread(_) => "it is damaged: a table can't be read. Go on from a copy",
        TablesFound::Damaged(table) => words_of_table(table),
        TablesFound::Whole => {
            "it can be opened now. Another program had it open, or its disk failed for a moment. \
             Try again"
        }
    }
}

// What is said of a table with which a contest isn't valid any more.
fn words_of_table(table: TableName) -> &'static str {
    match table {
        TableName::Desk | TableName::Contest => {
            "it is damaged, in the table desk or contest. Go on from a copy"
        }
        TableName::Items => "it is damaged, in the table items. Go on from a copy",
        TableName::Accounts => "it is damaged, in the table accounts. Go on from a copy",
        TableName::Submissions => "it is damaged, in the table submissions. Go on from a copy",
        TableName::Proposals => "it is damaged, in the table proposals. Go on from a copy",
        TableName::Releases => "it is damaged, in the table releases. Go on from a copy",
        TableName::Rejudgings | TableName::Members => {
            "it is damaged, in the table rejudgings or members. Go on from a copy"
        }
        TableName::Clarifications | TableName::Notices => {
            "it is damaged, in the table notices. Go on from a copy"
        }
        TableName::Cells => {
            "the rows of its table cells aren't what the other tables come to. If these are right, \
             take it out (sqlite3 FILE 'DROP TABLE cells'): the next command makes it anew"
        }
    }
}
