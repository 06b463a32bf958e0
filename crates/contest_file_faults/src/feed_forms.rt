//! The events of a feed, and the objects of their types.

use crate::form::{
    DURATION, Field, Form, GROUPS_FULL, ID_TEXT, NAME_TEXT, ORDINAL, PROBLEMS_FULL, Reference,
    SUBMISSIONS_FULL, Syntax, TEAMS_FULL, TIME, TRUTH_OR_NONE, TYPES_FULL,
};
use crate::reader::FileReader;

/// What is said of an object whose fields are right by themselves.
const OBJECT: &str =
    "Its id is missing. Right would be: an id of its own, or one of the event if it \
     is in no array.";

/// The same of a team.
const TEAM: &str = "Its id is missing, where it is in an array or the event has none; or it has \
     neither a display_name nor a name of 1 to 200 bytes without control characters.";

/// The same of a contest.
const CUP: &str = "Its id is missing, where it is in an array or the event has none; or it has \
     neither a formal_name nor a name of 1 to 200 bytes without control characters; or its freeze \
     duration is longer than its duration.";

/// The form of the objects of a type, if it is one that is read.
pub(crate) fn feed_form(name: &str) -> Option<&'static Form> {
    match name {
        "contest" | "contests" => Some(&CONTEST),
        "judgement-types" => Some(&JUDGEMENT_TYPES),
        "problems" => Some(&PROBLEMS),
        "groups" => Some(&GROUPS),
        "teams" => Some(&TEAMS),
        "submissions" => Some(&SUBMISSIONS),
        "judgements" => Some(&JUDGEMENTS),
        _ => None,
    }
}

/// An event.
pub(crate) static EVENT: Form = Form {
    syntax: Syntax::Json,
    reader: FileReader::Feed,
    columns: "",
    before: "{",
    after: "}",
    fields: &[
        Field {
            name: "type",
            samples: [r#""x""#, r#""x""#],
            right: "a text",
        },
        Field {
            name: "id",
            samples: ["", ""],
            right: "a text or null; it may be left out",
        },
        Field {
            name: "data",
            samples: ["{}", "[]"],
            right: "an object, an array or null",
        },
        Field {
            name: "op",
            samples: ["", ""],
            right: r#""create", "update" or "delete"; it may be left out"#,
        },
    ],
    together: "An event that takes away has no array as its data, and one with an array has no id; else it or its object needs an id.",
    references: &[],
    keys: &[],
    full: "",
};

/// A contest.
static CONTEST: Form = Form {
    syntax: Syntax::Json,
    reader: FileReader::Feed,
    columns: "",
    before: r#"{"type":"contest","id":"x","data":{"#,
    after: "}}",
    fields: &[
        Field {
            name: "id",
            samples: ["", ""],
            right: ID_TEXT,
        },
        Field {
            name: "formal_name",
            samples: ["", r#""x""#],
            right: "a text of 1 to 200 bytes without control characters; it may be left out",
        },
        Field {
            name: "name",
            samples: [r#""x""#, r#""x""#],
            right: NAME_TEXT,
        },
        Field {
            name: "duration",
            samples: [r#""1000:00:00""#, r#""1000:00:00""#],
            right: DURATION,
        },
        Field {
            name: "scoreboard_freeze_duration",
            samples: ["", ""],
            right: "h:mm:ss or h:mm:ss.uuu, at most the duration, or null; it may be left out",
        },
        Field {
            name: "penalty_time",
            samples: ["", ""],
            right: "0 to 1000 minutes, as a whole number or as h:mm:ss; it may be left out",
        },
    ],
    together: CUP,
    references: &[],
    keys: &[],
    full: "",
};

/// A judgement type.
static JUDGEMENT_TYPES: Form = Form {
    syntax: Syntax::Json,
    reader: FileReader::Feed,
    columns: "",
    before: r#"{"type":"judgement-types","id":"x","data":{"#,
    after: "}}",
    fields: &[
        Field {
            name: "id",
            samples: ["", ""],
            right: ID_TEXT,
        },
        Field {
            name: "name",
            samples: [r#""x""#, r#""x""#],
            right: NAME_TEXT,
        },
        Field {
            name: "solved",
            samples: ["", ""],
            right: TRUTH_OR_NONE,
        },
        Field {
            name: "penalty",
            samples: ["", ""],
            right: TRUTH_OR_NONE,
        },
    ],
    together: OBJECT,
    references: &[],
    keys: &[],
    full: TYPES_FULL,
};

/// A problem.
static PROBLEMS: Form = Form {
    syntax: Syntax::Json,
    reader: FileReader::Feed,
    columns: "",
    before: r#"{"type":"problems","id":"x","data":{"#,
    after: "}}",
    fields: &[
        Field {
            name: "id",
            samples: ["", ""],
            right: ID_TEXT,
        },
        Field {
            name: "label",
            samples: [r#""x""#, r#""x""#],
            right: NAME_TEXT,
        },
        Field {
            name: "name",
            samples: [r#""x""#, r#""x""#],
            right: NAME_TEXT,
        },
        Field {
            name: "ordinal",
            samples: ["0", "0"],
            right: ORDINAL,
        },
    ],
    together: OBJECT,
    references: &[],
    keys: &[1],
    full: PROBLEMS_FULL,
};

/// A group.
static GROUPS: Form = Form {
    syntax: Syntax::Json,
    reader: FileReader::Feed,
    columns: "",
    before: r#"{"type":"groups","id":"x","data":{"#,
    after: "}}",
    fields: &[
        Field {
            name: "id",
            samples: ["", ""],
            right: ID_TEXT,
        },
        Field {
            name: "hidden",
            samples: ["", ""],
            right: TRUTH_OR_NONE,
        },
    ],
    together: OBJECT,
    references: &[],
    keys: &[],
    full: GROUPS_FULL,
};

/// A team.
static TEAMS: Form = Form {
    syntax: Syntax::Json,
    reader: FileReader::Feed,
    columns: "",
    before: r#"{"type":"teams","id":"x","data":{"#,
    after: "}}",
    fields: &[
        Field {
            name: "id",
            samples: ["", ""],
            right: ID_TEXT,
        },
        Field {
            name: "display_name",
            samples: ["", r#""x""#],
            right: "a text of 1 to 200 bytes without control characters; it may be left out",
        },
        Field {
            name: "name",
            samples: [r#""x""#, r#""x""#],
            right: NAME_TEXT,
        },
        Field {
            name: "group_ids",
            samples: ["", ""],
            right: "an array of ids, or null; it may be left out",
        },
        Field {
            name: "hidden",
            samples: ["", ""],
            right: TRUTH_OR_NONE,
        },
    ],
    together: TEAM,
    references: &[],
    keys: &[],
    full: TEAMS_FULL,
};

/// A submission.
static SUBMISSIONS: Form = Form {
    syntax: Syntax::Json,
    reader: FileReader::Feed,
    columns: "",
    before: r#"{"type":"submissions","id":"x","data":{"#,
    after: "}}",
    fields: &[
        Field {
            name: "id",
            samples: ["", ""],
            right: ID_TEXT,
        },
        Field {
            name: "team_id",
            samples: [r#""x""#, r#""x""#],
            right: ID_TEXT,
        },
        Field {
            name: "problem_id",
            samples: [r#""x""#, r#""x""#],
            right: ID_TEXT,
        },
        Field {
            name: "contest_time",
            samples: [r#""0:00:00""#, r#""0:00:00""#],
            right: TIME,
        },
    ],
    together: OBJECT,
    references: &[
        Reference {
            place: 1,
            kind: None,
            right: "the id of a team that is there at the feed's end",
        },
        Reference {
            place: 2,
            kind: None,
            right: "the id of a problem that is there at the feed's end",
        },
    ],
    keys: &[],
    full: SUBMISSIONS_FULL,
};

/// A judgement.
static JUDGEMENTS: Form = Form {
    syntax: Syntax::Json,
    reader: FileReader::Feed,
    columns: "",
    before: r#"{"type":"judgements","id":"x","data":{"#,
    after: "}}",
    fields: &[
        Field {
            name: "id",
            samples: ["", ""],
            right: ID_TEXT,
        },
        Field {
            name: "submission_id",
            samples: [r#""x""#, r#""x""#],
            right: ID_TEXT,
        },
        Field {
            name: "judgement_type_id",
            samples: ["", ""],
            right: "a text with an id, or null; it may be left out",
        },
        Field {
            name: "end_contest_time",
            samples: ["", ""],
            right: "h:mm:ss or h:mm:ss.uuu, or null; it may be left out",
        },
        Field {
            name: "valid",
            samples: ["", ""],
            right: TRUTH_OR_NONE,
        },
        Field {
            name: "current",
            samples: ["", ""],
            right: TRUTH_OR_NONE,
        },
    ],
    together: OBJECT,
    references: &[Reference {
        place: 2,
        kind: None,
        right: "the id of a judgement type that is there at the feed's end",
    }],
    keys: &[],
    full: "",
};
