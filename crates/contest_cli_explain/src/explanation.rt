//! The explanation of a refusal.

use crate::asked::Asked;
use crate::file_fault::tell_file_fault;
use crate::meanings::{CLOCK, NET, meaning_of};
use crate::named_file::{read_again, tell_of_file};
use crate::store_fault::tell_store_fault;
use crate::told::{Told, told_in};
use contest_file_faults::{
    Faulty, Report, tell_contest, tell_event, tell_imported_file, tell_imported_row,
    tell_no_contest, tell_replay_file, tell_replay_row, tell_scoreboard,
};
use std::alloc::AllocError;

/// What standard input is called.
const INPUT: &str = "standard input";

/// A command that has ended with a refusal.
#[derive(Clone, Copy)]
pub struct Ended<'s> {
    /// The line that tells of the refusal, without its end.
    pub line: &'s [u8],
    /// What it read of standard input, as far as that was kept; none if there was no memory for it.
    pub input: Option<&'s [u8]>,
    /// Whether it asked for standard input.
    pub input_was_read: bool,
    /// Whether a read of standard input failed.
    pub input_failed: bool,
    /// Whether a write to standard output failed.
    pub output_failed: bool,
}

/// The lines that explain a refusal: what is seen of it once the command has ended. There may be
/// none. Files are only read; what they have now may be other than what was refused.
///
/// # Errors
///
/// Want of memory alone.
pub fn explain(
    rt: &HostRuntime,
    asked: Asked<'_>,
    ended: &Ended<'_>,
) -> Result<String, AllocError> {
    let mut report = Report::new(rt.alloc());
    if let Some(told) = told_in(ended.line) {
        tell(rt, asked, ended, told, &mut report)?;
    }
    Ok(report.into_text())
}

fn tell(
    rt: &HostRuntime,
    asked: Asked<'_>,
    ended: &Ended<'_>,
    told: Told,
    report: &mut Report,
) -> Result<(), AllocError> {
    match told {
        Told::File => tell_file_fault(rt, asked, ended, report),
        Told::Clock => tell_lines(CLOCK, report),
        Told::Net => tell_lines(NET, report),
        Told::Refused(1) => tell_off_form(rt, asked, ended, report),
        Told::Refused(24) => tell_store(rt, asked, report),
        Told::Refused(number) => tell_lines(meaning_of(number, asked), report),
        Told::Row(number, cause) => match (asked, ended.input) {
            (Asked::Replay | Asked::Audit { .. }, None) => Ok(()),
            (_, input) => {
                let faulty = Faulty {
                    source: INPUT,
                    file: input.unwrap_or(&[]),
                    number,
                    cause,
                };
                tell_row(rt, asked, &faulty, report)
            }
        },
    }
}

fn tell_lines(lines: &[&str], report: &mut Report) -> Result<(), AllocError> {
    for line in lines {
        report.line(line)?;
    }
    Ok(())
}

fn tell_store(rt: &HostRuntime, asked: Asked<'_>, report: &mut Report) -> Result<(), AllocError> {
    match asked {
        Asked::Init { file, contest: _ } => tell_store_fault(rt, file, true, report),
        Asked::Import { file, .. } | Asked::Kept { file } => {
            tell_store_fault(rt, file, false, report)
        }
        Asked::Replay | Asked::Audit { .. } => Ok(()),
    }
}

// Tells of a record at fault, by what was read of standard input, or by a file that is read again.
fn tell_row(
    rt: &HostRuntime,
    asked: Asked<'_>,
    faulty: &Faulty<'_>,
    report: &mut Report,
) -> Result<(), AllocError> {
    match asked {
        Asked::Replay => tell_replay_row(rt.alloc(), faulty, report),
        Asked::Audit { .. } => tell_event(rt.alloc(), faulty, report),
        Asked::Import { kind, path, .. } => match read_again(rt, path)? {
            Some(file) => {
                let faulty = Faulty {
                    source: path,
                    file: &file,
                    number: faulty.number,
                    cause: faulty.cause,
                };
                tell_imported_row(rt.alloc(), kind, &faulty, report)
            }
            None => tell_unread(path, report),
        },
        Asked::Init { .. } | Asked::Kept { .. } => Ok(()),
    }
}

// Tells of what is off its form as a whole.
fn tell_off_form(
    rt: &HostRuntime,
    asked: Asked<'_>,
    ended: &Ended<'_>,
    report: &mut Report,
) -> Result<(), AllocError> {
    match asked {
        Asked::Replay => match ended.input {
            Some(file) => tell_replay_file(rt.alloc(), INPUT, file, report),
            None => Ok(()),
        },
        Asked::Audit { .. } if ended.input_was_read => tell_no_contest(report),
        Asked::Audit {
            against: Some(path),
        } => tell_off_form_at(rt, path, asked, report),
        Asked::Init { contest: path, .. } | Asked::Import { path, .. } => {
            tell_off_form_at(rt, path, asked, report)
        }
        Asked::Audit { against: None } | Asked::Kept { .. } => Ok(()),
    }
}

// The same of a file that the words name.
fn tell_off_form_at(
    rt: &HostRuntime,
    path: &str,
    asked: Asked<'_>,
    report: &mut Report,
) -> Result<(), AllocError> {
    let Some(file) = read_again(rt, path)? else {
        return tell_unread(path, report);
    };
    match asked {
        Asked::Import { kind, .. } => tell_imported_file(rt.alloc(), kind, path, &file, report),
        Asked::Init { .. } => tell_contest(rt.alloc(), path, &file, report),
        Asked::Audit { .. } => tell_scoreboard(rt.alloc(), path, &file, report),
        Asked::Replay | Asked::Kept { .. } => Ok(()),
    }
}

fn tell_unread(path: &str, report: &mut Report) -> Result<(), AllocError> {
    tell_of_file(path, "it can't be read again to say more", report)
}
