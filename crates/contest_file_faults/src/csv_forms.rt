//! The records of the CSV files that are imported.

use crate::form::{Field, Form, ID, NAME, Reference, Syntax, TEAMS_FULL};
use crate::reader::FileReader;
use contest_types::FixedKind;

/// Teams.
pub(crate) static TEAMS_CSV: Form = Form {
    syntax: Syntax::Csv,
    reader: FileReader::Import(FixedKind::TeamsCsv),
    columns: "id,name,group_ids,hidden",
    before: "id,name,group_ids,hidden\n",
    after: "\n",
    fields: &[
        Field {
            name: "id",
            samples: ["x", "x"],
            right: ID,
        },
        Field {
            name: "name",
            samples: ["x", "x"],
            right: NAME,
        },
        Field {
            name: "group_ids",
            samples: ["", ""],
            right: "ids of groups, each once, with one space between two; or nothing",
        },
        Field {
            name: "hidden",
            samples: ["", ""],
            right: "true, false or nothing",
        },
    ],
    together: "",
    references: &[Reference {
        place: 2,
        kind: None,
        right: "ids of groups that are in the contest already",
    }],
    keys: &[0],
    full: TEAMS_FULL,
};

/// Accounts.
pub(crate) static ACCOUNTS_CSV: Form = Form {
    syntax: Syntax::Csv,
    reader: FileReader::Import(FixedKind::AccountsCsv),
    columns: "id,role,team_id,token",
    before: "id,role,team_id,token\n",
    after: "\n",
    fields: &[
        Field {
            name: "id",
            samples: ["x", "x"],
            right: "1 to 36 of the characters A-Z a-z 0-9 _ . -, the first of them not a -; and not \
             import, which is kept for what is imported",
        },
        Field {
            name: "role",
            samples: ["judge", "team"],
            right: "team, judge, admin or analyst",
        },
        Field {
            name: "team_id",
            samples: ["", "x"],
            right: "the id of a team, for the role team; nothing for another role",
        },
        Field {
            name: "token",
            samples: ["00000000", "00000000"],
            right: "8 to 128 of the characters A-Z a-z 0-9 - . _ ~ + /, with any number of = at the end",
        },
    ],
    together: "The role and the team_id don't go together. Right would be: the id of a team for the \
     role team, and nothing for another role.",
    references: &[Reference {
        place: 2,
        kind: None,
        right: "the id of a team that is in the contest already",
    }],
    keys: &[0, 3],
    full: "There are 2,000 accounts already, which is as many as there may be.",
};

/// Verdicts.
pub(crate) static VERDICTS_CSV: Form = Form {
    syntax: Syntax::Csv,
    reader: FileReader::Verdicts,
    columns: "submission_id,judgement_type_id",
    before: "submission_id,judgement_type_id\n",
    after: "\n",
    fields: &[
        Field {
            name: "submission_id",
            samples: ["x", "x"],
            right: "the id of a submission, as s1-2",
        },
        Field {
            name: "judgement_type_id",
            samples: ["x", "x"],
            right: "the id of a judgement type, as AC",
        },
    ],
    together: "",
    references: &[
        Reference {
            place: 0,
            kind: None,
            right: "the id of a submission that is in the contest already",
        },
        Reference {
            place: 1,
            kind: None,
            right: "the id of a judgement type that is in the contest already",
        },
    ],
    keys: &[0],
    full: "There are 1,000 proposals for the submission already, which is as many as there may be.",
};
