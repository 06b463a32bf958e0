//! Imports as walks show them: `at 2024-03-02T08:00:00Z import`, and below it the kind and the
//! file, as in `teams-csv id,name,group_ids,hidden | t1,Alpha,,`, where ` | ` ends a line of the
//! file.

use contest_desk::{ImportItem, Item};
use contest_types::{ImportKind, Moment, Refusal, Rows};
use std::alloc::{AllocError, Global};
use std::test::Fail;

/// The import that a line shows, at a moment.
pub fn import_at(alloc: Global, now: Moment, line: &str) -> Result<Item, Fail> {
    let (kind, file) = line.split_once(' ').unwrap_or((line, ""));
    Ok(Item::Import(ImportItem {
        now,
        kind: ImportKind::named(kind).ok_or("no kind of import")?,
        file: file_of(alloc, file)?,
    }))
}

/// The file, in which `<500 teams>` stands for the records of so many teams.
fn file_of(alloc: Global, text: &str) -> Result<Rows<u8>, AllocError> {
    let mut file = String::new(alloc);
    for line in text.split(" | ") {
        match count_in(line) {
            Some(count) => push_teams(alloc, &mut file, count)?,
            None => file.push_str(line)?,
        }
        file.push('\n')?;
    }
    Ok(Rows::from_vec(file.into_bytes()))
}

/// How many teams a line stands for.
fn count_in(line: &str) -> Option<u32> {
    let (_, rest) = line.split_once('<')?;
    let (count, _) = rest.split_once(" teams>")?;
    count.parse().ok()
}

fn push_teams(alloc: Global, file: &mut String, count: u32) -> Result<(), AllocError> {
    for number in 1..=count {
        file.push_str(format!(in alloc; "n{number},Team {number},,\n")?.as_str())?;
    }
    Ok(())
}

/// The line of an answer: `added 3`, or `refused: E22 ImportRow 1 KeyReused`.
pub fn answer_line(alloc: Global, answer: &Result<u64, Refusal>) -> Result<String, AllocError> {
    match answer {
        Ok(added) => format!(in alloc; "added {added}\n"),
        Err(refusal) => refusal_line(alloc, *refusal),
    }
}

fn refusal_line(alloc: Global, refusal: Refusal) -> Result<String, AllocError> {
    let row = refusal.row();
    let (number, name) = (row.number, row.name);
    match refusal {
        Refusal::ImportRow(record, cause) => {
            let cause = cause.name();
            format!(in alloc; "refused: E{number} {name} {record} {cause}\n")
        }
        _ => format!(in alloc; "refused: E{number} {name}\n"),
    }
}
