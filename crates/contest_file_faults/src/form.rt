//! What is said of a record: its fields as a table.

use crate::reader::FileReader;

/// How the fields of a record are written.
#[derive(Clone, Copy, PartialEq, Eq)]
pub(crate) enum Syntax {
    /// As a record of CSV.
    Csv,
    /// As the members of a JSON object.
    Json,
}

/// A field of a record: a column of CSV or a member of JSON.
#[derive(Clone, Copy)]
pub(crate) struct Field {
    /// Its name.
    pub(crate) name: &'static str,
    /// What stands here in two records that are right, as the file would have it; nothing of a
    /// member that isn't there.
    pub(crate) samples: [&'static str; 2],
    /// What would be right.
    pub(crate) right: &'static str,
}

/// A field that names something else.
#[derive(Clone, Copy)]
pub(crate) struct Reference {
    /// Its place among the fields.
    pub(crate) place: usize,
    /// The kind of the records that it names, where they are in the same file.
    pub(crate) kind: Option<&'static str>,
    /// What would be right.
    pub(crate) right: &'static str,
}

/// The records of a file.
#[derive(Clone, Copy)]
pub(crate) struct Form {
    /// How they are written.
    pub(crate) syntax: Syntax,
    /// Who reads them.
    pub(crate) reader: FileReader,
    /// The columns of CSV, as the header names them; nothing of JSON.
    pub(crate) columns: &'static str,
    /// What comes before a record in a file of one record.
    pub(crate) before: &'static str,
    /// What comes behind it.
    pub(crate) after: &'static str,
    /// The fields.
    pub(crate) fields: &'static [Field],
    /// What is said if each field is right by itself.
    pub(crate) together: &'static str,
    /// The fields that name something else.
    pub(crate) references: &'static [Reference],
    /// The places of the fields that no two records may share.
    pub(crate) keys: &'static [usize],
    /// What is said if the table is full.
    pub(crate) full: &'static str,
}

/// What an id is.
pub(crate) const ID: &str =
    "1 to 36 of the characters A-Z a-z 0-9 _ . -, the first of them not a -";

/// The same in JSON.
pub(crate) const ID_TEXT: &str =
    "a text of 1 to 36 of the characters A-Z a-z 0-9 _ . -, the first of them not a -";

/// What a name is.
pub(crate) const NAME: &str = "1 to 200 bytes of UTF-8 without control characters";

/// The same in JSON.
pub(crate) const NAME_TEXT: &str = "a text of 1 to 200 bytes without control characters";

/// What a truth is.
pub(crate) const TRUTH: &str = "true or false";

/// What a truth is that may be left out.
pub(crate) const TRUTH_OR_NONE: &str = "true or false; it may be left out";

/// What an ordinal is.
pub(crate) const ORDINAL: &str = "a whole number from 0 to 65535";

/// What a time is.
pub(crate) const TIME: &str =
    "h:mm:ss or h:mm:ss.uuu, as 0:05:00, with a - in front if it is below zero";

/// What a duration is.
pub(crate) const DURATION: &str =
    "h:mm:ss or h:mm:ss.uuu, as 5:00:00, over 0 and at most 1000:00:00.000";

/// What is said if there are 40 judgement types.
pub(crate) const TYPES_FULL: &str =
    "There are 40 judgement types already, which is as many as there may be.";

/// What is said if there are 40 problems.
pub(crate) const PROBLEMS_FULL: &str =
    "There are 40 problems already, which is as many as there may be.";

/// What is said if there are 50 groups.
pub(crate) const GROUPS_FULL: &str =
    "There are 50 groups already, which is as many as there may be.";

/// What is said if there are 500 teams.
pub(crate) const TEAMS_FULL: &str =
    "There are 500 teams already, which is as many as there may be.";

/// What is said if a team has 500 submissions.
pub(crate) const SUBMISSIONS_FULL: &str =
    "Its team has 500 submissions already, which is as many as there may be.";
