//! The tables of a contest as a database has them, once the statements of `texts` have made them.

use ColumnForm::{Bytes, Number, NumberOrNone, Text, TextOrNone};

/// A column of a STRICT table, by its name.
pub(crate) enum ColumnForm {
    /// Integers, of which none is missing.
    Number(&'static [u8]),
    /// Integers, of which any may be missing.
    NumberOrNone(&'static [u8]),
    /// Texts, of which none is missing.
    Text(&'static [u8]),
    /// Texts, of which any may be missing.
    TextOrNone(&'static [u8]),
    /// Blobs, of which none is missing.
    Bytes(&'static [u8]),
}

/// A table, and the tree of its rows.
pub(crate) struct TableForm {
    pub(crate) name: &'static [u8],
    pub(crate) tree: u32,
    /// The column that is the number of a row in the tree, if one is.
    pub(crate) key: Option<usize>,
    /// The places of the primary key.
    pub(crate) primary: &'static [usize],
    /// The places of each key that has an index.
    pub(crate) uniques: &'static [&'static [usize]],
    pub(crate) columns: &'static [ColumnForm],
}

/// An index, its tree and that of its table, and the places of its columns.
pub(crate) struct IndexForm {
    pub(crate) name: &'static [u8],
    pub(crate) tree: u32,
    pub(crate) table: u32,
    pub(crate) columns: &'static [usize],
}

/// The tables, in the order in which they are made.
pub(crate) static TABLE_FORMS: [TableForm; 12] = [
    TableForm {
        name: b"desk",
        tree: 0,
        key: Some(0),
        primary: &[0],
        uniques: &[],
        columns: &[NumberOrNone(b"one"), Number(b"version")],
    },
    TableForm {
        name: b"contest",
        tree: 1,
        key: Some(0),
        primary: &[0],
        uniques: &[],
        columns: &[
            NumberOrNone(b"one"),
            Text(b"id"),
            Text(b"name"),
            Number(b"duration"),
            NumberOrNone(b"freeze"),
            Number(b"penalty"),
            Number(b"verification"),
            Number(b"gold"),
            Number(b"silver"),
            Number(b"bronze"),
            NumberOrNone(b"start"),
            NumberOrNone(b"thaw"),
            NumberOrNone(b"finalized"),
        ],
    },
    TableForm {
        name: b"items",
        tree: 2,
        key: None,
        primary: &[1, 2],
        uniques: &[&[1, 2], &[1, 3]],
        columns: &[
            Number(b"kind"),
            Number(b"place"),
            Text(b"id"),
            Text(b"name"),
            Text(b"label"),
            Number(b"ordinal"),
            Number(b"flag_a"),
            Number(b"flag_b"),
            Text(b"group_ids"),
        ],
    },
    TableForm {
        name: b"accounts",
        tree: 5,
        key: None,
        primary: &[1],
        uniques: &[&[1], &[4]],
        columns: &[
            Text(b"id"),
            Number(b"role"),
            TextOrNone(b"team"),
            Bytes(b"token"),
        ],
    },
    TableForm {
        name: b"submissions",
        tree: 8,
        key: Some(0),
        primary: &[0],
        uniques: &[&[2, 3], &[2, 9]],
        columns: &[
            NumberOrNone(b"seq"),
            Number(b"team"),
            Number(b"k"),
            Number(b"time"),
            Text(b"problem"),
            Text(b"language"),
            TextOrNone(b"entry"),
            Bytes(b"file"),
            TextOrNone(b"key"),
        ],
    },
    TableForm {
        name: b"proposals",
        tree: 11,
        key: Some(0),
        primary: &[0],
        uniques: &[],
        columns: &[
            NumberOrNone(b"seq"),
            Number(b"team"),
            Number(b"k"),
            Text(b"type"),
            Text(b"account"),
            Number(b"time"),
        ],
    },
    TableForm {
        name: b"releases",
        tree: 12,
        key: Some(0),
        primary: &[0],
        uniques: &[&[2, 3, 4]],
        columns: &[
            NumberOrNone(b"seq"),
            Number(b"team"),
            Number(b"k"),
            Number(b"n"),
            Text(b"type"),
            Number(b"time"),
        ],
    },
    TableForm {
        name: b"rejudgings",
        tree: 14,
        key: Some(0),
        primary: &[0],
        uniques: &[],
        columns: &[NumberOrNone(b"n"), Text(b"reason"), Number(b"state")],
    },
    TableForm {
        name: b"members",
        tree: 15,
        key: None,
        primary: &[1, 2],
        uniques: &[&[1, 2]],
        columns: &[
            Number(b"rejudging"),
            Number(b"place"),
            Number(b"team"),
            Number(b"k"),
            TextOrNone(b"type"),
            TextOrNone(b"account"),
            Number(b"ready"),
        ],
    },
    TableForm {
        name: b"clarifications",
        tree: 17,
        key: Some(0),
        primary: &[0],
        uniques: &[&[2, 3]],
        columns: &[
            NumberOrNone(b"seq"),
            Number(b"audience"),
            Number(b"k"),
            Number(b"from_jury"),
            Text(b"account"),
            TextOrNone(b"problem"),
            TextOrNone(b"reply"),
            Text(b"text"),
            Number(b"time"),
            TextOrNone(b"key"),
        ],
    },
    TableForm {
        name: b"cells",
        tree: 19,
        key: None,
        primary: &[1, 2, 3],
        uniques: &[&[1, 2, 3]],
        columns: &[
            Number(b"audience"),
            Number(b"team"),
            Text(b"problem"),
            Number(b"judged"),
            Number(b"pending"),
            NumberOrNone(b"solved"),
            Number(b"penalties"),
        ],
    },
    TableForm {
        name: b"notices",
        tree: 21,
        key: Some(0),
        primary: &[0],
        uniques: &[&[2, 3, 4]],
        columns: &[
            NumberOrNone(b"seq"),
            Number(b"kind"),
            Number(b"number"),
            Number(b"k"),
            Number(b"from_jury"),
            Text(b"account"),
            TextOrNone(b"problem"),
            TextOrNone(b"reply"),
            Text(b"text"),
            Number(b"time"),
            TextOrNone(b"key"),
        ],
    },
];

/// The indexes, in the order in which they are made.
pub(crate) static INDEX_FORMS: [IndexForm; 11] = [
    IndexForm {
        name: b"sqlite_autoindex_items_1",
        tree: 3,
        table: 2,
        columns: &[1, 2],
    },
    IndexForm {
        name: b"sqlite_autoindex_items_2",
        tree: 4,
        table: 2,
        columns: &[1, 3],
    },
    IndexForm {
        name: b"sqlite_autoindex_accounts_1",
        tree: 6,
        table: 5,
        columns: &[1],
    },
    IndexForm {
        name: b"sqlite_autoindex_accounts_2",
        tree: 7,
        table: 5,
        columns: &[4],
    },
    IndexForm {
        name: b"sqlite_autoindex_submissions_1",
        tree: 9,
        table: 8,
        columns: &[2, 3],
    },
    IndexForm {
        name: b"sqlite_autoindex_submissions_2",
        tree: 10,
        table: 8,
        columns: &[2, 9],
    },
    IndexForm {
        name: b"sqlite_autoindex_releases_1",
        tree: 13,
        table: 12,
        columns: &[2, 3, 4],
    },
    IndexForm {
        name: b"sqlite_autoindex_members_1",
        tree: 16,
        table: 15,
        columns: &[1, 2],
    },
    IndexForm {
        name: b"sqlite_autoindex_clarifications_1",
        tree: 18,
        table: 17,
        columns: &[2, 3],
    },
    IndexForm {
        name: b"sqlite_autoindex_cells_1",
        tree: 20,
        table: 19,
        columns: &[1, 2, 3],
    },
    IndexForm {
        name: b"sqlite_autoindex_notices_1",
        tree: 22,
        table: 21,
        columns: &[2, 3, 4],
    },
];
