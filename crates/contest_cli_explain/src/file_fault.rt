//! What is told of a stream that failed, or of a file that the words name and that can't be read.

use crate::asked::Asked;
use crate::explanation::Ended;
use crate::named_file::{fault_of, tell_of_file};
use contest_file_faults::Report;
use std::alloc::AllocError;

/// Tells which stream or which file failed.
pub(crate) fn tell_file_fault(
    rt: &HostRuntime,
    asked: Asked<'_>,
    ended: &Ended<'_>,
    report: &mut Report,
) -> Result<(), AllocError> {
    if ended.output_failed {
        return report.line(
            "Standard output failed: who reads it ended, or it goes to a file whose disk is full.",
        );
    }
    if ended.input_failed {
        return report.line("Standard input can't be read to its end.");
    }
    match path_of(asked) {
        Some(path) => tell_path(rt, path, report),
        None => report.line("A stream failed."),
    }
}

// The file that the command reads, beside the one that keeps the contest.
fn path_of(asked: Asked<'_>) -> Option<&str> {
    match asked {
        Asked::Audit { against } => against,
        Asked::Init { file: _, contest } => Some(contest),
        Asked::Import { path, .. } => Some(path),
        Asked::Replay | Asked::Kept { .. } => None,
    }
}

fn tell_path(rt: &HostRuntime, path: &str, report: &mut Report) -> Result<(), AllocError> {
    match fault_of(rt, path) {
        Some(reason) => tell_of_file(path, reason, report),
        None => tell_of_file(
            path,
            "its first byte can be read now. Its disk failed, or it was changed meanwhile",
            report,
        ),
    }
}
