//! The records of a replay file, by their kinds.

use crate::form::{
    DURATION, Field, Form, ID, NAME, ORDINAL, PROBLEMS_FULL, Reference, SUBMISSIONS_FULL, Syntax,
    TEAMS_FULL, TIME, TRUTH, TYPES_FULL,
};
use crate::reader::FileReader;

/// What a kind is.
const KIND: &str = "contest, type, problem, team or submission";

/// What is said of a record that isn't at its place.
const FIRST: &str =
    "Right would be: the contest as the first record, and every other record behind it.";

/// The form of records of a kind.
pub(crate) fn replay_form(kind: &[u8]) -> &'static Form {
    if kind == b"submission".as_slice() {
        &SUBMISSION
    } else if kind == b"team".as_slice() {
        &TEAM
    } else if kind == b"problem".as_slice() {
        &PROBLEM
    } else if kind == b"type".as_slice() {
        &TYPE
    } else if kind == b"contest".as_slice() {
        &CONTEST
    } else {
        &OTHER
    }
}

/// A record of a kind that there isn't: its kind alone is looked at.
static OTHER: Form = Form {
    syntax: Syntax::Csv,
    reader: FileReader::Replay,
    columns: "kind,id,f1,f2,f3",
    before: "kind,id,f1,f2,f3\ncontest,x,x,1:00:00,\n",
    after: ",x,x,0:00:00,\n",
    fields: &[Field {
        name: "kind",
        samples: ["submission", "submission"],
        right: KIND,
    }],
    together: "",
    references: &[],
    keys: &[],
    full: "",
};

/// The contest.
static CONTEST: Form = Form {
    syntax: Syntax::Csv,
    reader: FileReader::Replay,
    columns: "kind,id,f1,f2,f3",
    before: "kind,id,f1,f2,f3\n",
    after: "\n",
    fields: &[
        Field {
            name: "kind",
            samples: ["contest", "contest"],
            right: KIND,
        },
        Field {
            name: "id",
            samples: ["x", "x"],
            right: ID,
        },
        Field {
            name: "f1 (name)",
            samples: ["x", "x"],
            right: NAME,
        },
        Field {
            name: "f2 (duration)",
            samples: ["1000:00:00", "1000:00:00"],
            right: DURATION,
        },
        Field {
            name: "f3 (freeze duration)",
            samples: ["", ""],
            right: "h:mm:ss or h:mm:ss.uuu, at most the duration; or nothing for no freeze",
        },
    ],
    together: "The contest isn't the first record, or its freeze duration is longer than its duration.",
    references: &[],
    keys: &[],
    full: "",
};

/// A judgement type.
static TYPE: Form = Form {
    syntax: Syntax::Csv,
    reader: FileReader::Replay,
    columns: "kind,id,f1,f2,f3",
    before: "kind,id,f1,f2,f3\ncontest,x,x,1:00:00,\n",
    after: "\n",
    fields: &[
        Field {
            name: "kind",
            samples: ["type", "type"],
            right: KIND,
        },
        Field {
            name: "id",
            samples: ["x", "x"],
            right: ID,
        },
        Field {
            name: "f1 (name)",
            samples: ["x", "x"],
            right: NAME,
        },
        Field {
            name: "f2 (solved)",
            samples: ["true", "true"],
            right: TRUTH,
        },
        Field {
            name: "f3 (penalty)",
            samples: ["true", "true"],
            right: TRUTH,
        },
    ],
    together: FIRST,
    references: &[],
    keys: &[1],
    full: TYPES_FULL,
};

/// A problem.
static PROBLEM: Form = Form {
    syntax: Syntax::Csv,
    reader: FileReader::Replay,
    columns: "kind,id,f1,f2,f3",
    before: "kind,id,f1,f2,f3\ncontest,x,x,1:00:00,\n",
    after: "\n",
    fields: &[
        Field {
            name: "kind",
            samples: ["problem", "problem"],
            right: KIND,
        },
        Field {
            name: "id",
            samples: ["x", "x"],
            right: ID,
        },
        Field {
            name: "f1 (label)",
            samples: ["x", "x"],
            right: NAME,
        },
        Field {
            name: "f2 (name)",
            samples: ["x", "x"],
            right: NAME,
        },
        Field {
            name: "f3 (ordinal)",
            samples: ["0", "0"],
            right: ORDINAL,
        },
    ],
    together: FIRST,
    references: &[],
    keys: &[1, 2],
    full: PROBLEMS_FULL,
};

/// A team.
static TEAM: Form = Form {
    syntax: Syntax::Csv,
    reader: FileReader::Replay,
    columns: "kind,id,f1,f2,f3",
    before: "kind,id,f1,f2,f3\ncontest,x,x,1:00:00,\n",
    after: "\n",
    fields: &[
        Field {
            name: "kind",
            samples: ["team", "team"],
            right: KIND,
        },
        Field {
            name: "id",
            samples: ["x", "x"],
            right: ID,
        },
        Field {
            name: "f1 (name)",
            samples: ["x", "x"],
            right: NAME,
        },
        Field {
            name: "f2 (hidden)",
            samples: ["", ""],
            right: "true, false or nothing",
        },
        Field {
            name: "f3",
            samples: ["", ""],
            right: "nothing",
        },
    ],
    together: FIRST,
    references: &[],
    keys: &[1],
    full: TEAMS_FULL,
};

/// A submission.
static SUBMISSION: Form = Form {
    syntax: Syntax::Csv,
    reader: FileReader::Replay,
    columns: "kind,id,f1,f2,f3",
    before: "kind,id,f1,f2,f3\ncontest,x,x,1:00:00,\n",
    after: "\n",
    fields: &[
        Field {
            name: "kind",
            samples: ["submission", "submission"],
            right: KIND,
        },
        Field {
            name: "id (team)",
            samples: ["x", "x"],
            right: ID,
        },
        Field {
            name: "f1 (problem)",
            samples: ["x", "x"],
            right: ID,
        },
        Field {
            name: "f2 (contest time)",
            samples: ["0:00:00", "0:00:00"],
            right: TIME,
        },
        Field {
            name: "f3 (judgement type)",
            samples: ["", ""],
            right: "the id of a judgement type, or nothing for no verdict",
        },
    ],
    together: FIRST,
    references: &[
        Reference {
            place: 1,
            kind: Some("team"),
            right: "the id of a team in a record before this one",
        },
        Reference {
            place: 2,
            kind: Some("problem"),
            right: "the id of a problem in a record before this one",
        },
        Reference {
            place: 4,
            kind: Some("type"),
            right: "the id of a type in a record before this one",
        },
    ],
    keys: &[],
    full: SUBMISSIONS_FULL,
};
