//! The objects of the JSON files that set a contest up.

use crate::form::{
    DURATION, Field, Form, GROUPS_FULL, ID_TEXT, NAME_TEXT, ORDINAL, PROBLEMS_FULL, Reference,
    Syntax, TEAMS_FULL, TRUTH, TRUTH_OR_NONE, TYPES_FULL,
};
use crate::reader::FileReader;
use contest_types::{FixedKind, SettingsKind};

/// The form of the objects of a settings file.
pub(crate) fn settings_form(kind: SettingsKind) -> &'static Form {
    match kind {
        SettingsKind::JudgementTypes => &JUDGEMENT_TYPES,
        SettingsKind::Languages => &LANGUAGES,
        SettingsKind::Problems => &PROBLEMS,
        SettingsKind::Groups => &GROUPS,
        SettingsKind::Teams => &TEAMS,
    }
}

/// Judgement types.
static JUDGEMENT_TYPES: Form = Form {
    syntax: Syntax::Json,
    reader: FileReader::Import(FixedKind::Settings(SettingsKind::JudgementTypes)),
    columns: "",
    before: "[{",
    after: "}]",
    fields: &[
        Field {
            name: "id",
            samples: [r#""x""#, r#""x""#],
            right: ID_TEXT,
        },
        Field {
            name: "name",
            samples: [r#""x""#, r#""x""#],
            right: NAME_TEXT,
        },
        Field {
            name: "solved",
            samples: ["true", "true"],
            right: TRUTH,
        },
        Field {
            name: "penalty",
            samples: ["", ""],
            right: TRUTH_OR_NONE,
        },
    ],
    together: "",
    references: &[],
    keys: &[0],
    full: TYPES_FULL,
};

/// Languages.
static LANGUAGES: Form = Form {
    syntax: Syntax::Json,
    reader: FileReader::Import(FixedKind::Settings(SettingsKind::Languages)),
    columns: "",
    before: "[{",
    after: "}]",
    fields: &[
        Field {
            name: "id",
            samples: [r#""x""#, r#""x""#],
            right: ID_TEXT,
        },
        Field {
            name: "name",
            samples: [r#""x""#, r#""x""#],
            right: NAME_TEXT,
        },
        Field {
            name: "entry_point_required",
            samples: ["", ""],
            right: TRUTH_OR_NONE,
        },
    ],
    together: "",
    references: &[],
    keys: &[0],
    full: "There are 40 languages already, which is as many as there may be.",
};

/// Problems.
static PROBLEMS: Form = Form {
    syntax: Syntax::Json,
    reader: FileReader::Import(FixedKind::Settings(SettingsKind::Problems)),
    columns: "",
    before: "[{",
    after: "}]",
    fields: &[
        Field {
            name: "id",
            samples: [r#""x""#, r#""x""#],
            right: ID_TEXT,
        },
        Field {
            name: "label",
            samples: [r#""x""#, r#""x""#],
            right: NAME_TEXT,
        },
        Field {
            name: "name",
            samples: [r#""x""#, r#""x""#],
            right: NAME_TEXT,
        },
        Field {
            name: "ordinal",
            samples: ["0", "0"],
            right: ORDINAL,
        },
    ],
    together: "",
    references: &[],
    keys: &[0, 1],
    full: PROBLEMS_FULL,
};

/// Groups.
static GROUPS: Form = Form {
    syntax: Syntax::Json,
    reader: FileReader::Import(FixedKind::Settings(SettingsKind::Groups)),
    columns: "",
    before: "[{",
    after: "}]",
    fields: &[
        Field {
            name: "id",
            samples: [r#""x""#, r#""x""#],
            right: ID_TEXT,
        },
        Field {
            name: "name",
            samples: [r#""x""#, r#""x""#],
            right: NAME_TEXT,
        },
    ],
    together: "",
    references: &[],
    keys: &[0],
    full: GROUPS_FULL,
};

/// Teams.
static TEAMS: Form = Form {
    syntax: Syntax::Json,
    reader: FileReader::Import(FixedKind::Settings(SettingsKind::Teams)),
    columns: "",
    before: "[{",
    after: "}]",
    fields: &[
        Field {
            name: "id",
            samples: [r#""x""#, r#""x""#],
            right: ID_TEXT,
        },
        Field {
            name: "name",
            samples: [r#""x""#, r#""x""#],
            right: NAME_TEXT,
        },
        Field {
            name: "group_ids",
            samples: ["", ""],
            right: "an array of ids of groups, each once; it may be left out",
        },
        Field {
            name: "hidden",
            samples: ["", ""],
            right: TRUTH_OR_NONE,
        },
    ],
    together: "",
    references: &[Reference {
        place: 2,
        kind: None,
        right: "ids of groups that are in the contest already",
    }],
    keys: &[0],
    full: TEAMS_FULL,
};

/// The contest that is set up.
pub(crate) static CONTEST: Form = Form {
    syntax: Syntax::Json,
    reader: FileReader::Contest,
    columns: "",
    before: "{",
    after: "}",
    fields: &[
        Field {
            name: "id",
            samples: [r#""x""#, r#""x""#],
            right: ID_TEXT,
        },
        Field {
            name: "name",
            samples: [r#""x""#, r#""x""#],
            right: NAME_TEXT,
        },
        Field {
            name: "duration",
            samples: [r#""1000:00:00""#, r#""1000:00:00""#],
            right: DURATION,
        },
        Field {
            name: "start_time",
            samples: ["", ""],
            right: r#"a moment of the years 1970 to 9998, as "2026-03-02T09:00:00Z", or null; it may be left out"#,
        },
        Field {
            name: "scoreboard_freeze_duration",
            samples: ["", ""],
            right: "h:mm:ss or h:mm:ss.uuu, at most the duration, or null; it may be left out",
        },
        Field {
            name: "scoreboard_type",
            samples: ["", ""],
            right: r#""pass-fail"; it may be left out"#,
        },
        Field {
            name: "penalty_time",
            samples: ["", ""],
            right: "0 to 1000 minutes, as a whole number or as h:mm:ss; it may be left out",
        },
        Field {
            name: "verification",
            samples: ["", ""],
            right: TRUTH_OR_NONE,
        },
        Field {
            name: "medals",
            samples: ["", ""],
            right: "an object with gold, silver and bronze, each a whole number from 0 to 100 or left out; it may be left out",
        },
    ],
    together: "The freeze duration is longer than the duration, or the contest ends after the year 9998.",
    references: &[],
    keys: &[],
    full: "",
};
