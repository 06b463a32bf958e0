//! What each refusal means that says nothing of a place in a file, and what to do.

use crate::asked::Asked;

/// The lines of the refusal with this number.
pub(crate) fn meaning_of(number: u64, asked: Asked<'_>) -> &'static [&'static str] {
    match number {
        6 => too_large(asked),
        13 => &[
            "FILE keeps another contest than CONTEST says: one of them has another value in a member \
             but start_time.",
            "desk init never changes a contest. Name another FILE, or correct CONTEST.",
        ],
        23 => &[
            "The contest has started or has a submission, and the file would add to its settings or \
             teams. Only accounts and verdicts are imported then.",
            "If nobody submitted or asked, an administrator can move the start. A late team is added \
             by POST /jury/teams.",
        ],
        25 => &["The system gave no more memory. Nothing was changed. Try again with more."],
        26 => &["FILE has the tables of the first schema. Copy it, then run desk upgrade FILE."],
        _ => &[],
    }
}

fn too_large(asked: Asked<'_>) -> &'static [&'static str] {
    match asked {
        Asked::Audit { .. } => &[
            "A line of the feed has more than 16,777,216 bytes, all have more than 1,073,741,824, or \
             the file of --against has more than 16,777,216.",
        ],
        Asked::Import { .. } => &[
            "The file has more than 16,777,216 bytes. Cut it into several, each with the header or \
             as an array: an import adds what isn't there yet.",
        ],
        Asked::Init { .. } | Asked::Replay | Asked::Kept { .. } => {
            &["The file has more than 16,777,216 bytes."]
        }
    }
}

/// The lines of the clock.
pub(crate) const CLOCK: &[&str] = &[
    "The machine's clock can't be read, or shows no moment of the years 1970 to 9998.",
    "Set the clock. desk board, awards and feed can be given a moment by --at.",
];

/// The lines of the port.
pub(crate) const NET: &[&str] = &[
    "The port can't be had, or nobody can connect to it any more. Perhaps another program listens on \
     it, or its number is below 1024 and this user has no right to it.",
    "Choose another one by --port, or leave that out, and the system chooses.",
];
