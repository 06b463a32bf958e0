//! The tables of the first schema, by the statements that made them.

/// The statements, in their order. The first desks lacked the last table, that of the cells.
pub static FIRST_TABLES: [&str; 11] = [
    "CREATE TABLE desk (one INTEGER PRIMARY KEY, version INTEGER NOT NULL) STRICT",
    "CREATE TABLE contest (one INTEGER PRIMARY KEY, id TEXT NOT NULL, name TEXT NOT NULL, duration INTEGER NOT NULL, freeze INTEGER, penalty INTEGER NOT NULL, verification INTEGER NOT NULL, gold INTEGER NOT NULL, silver INTEGER NOT NULL, bronze INTEGER NOT NULL, start INTEGER, thaw INTEGER, finalized INTEGER) STRICT",
    "CREATE TABLE items (kind INTEGER NOT NULL, place INTEGER NOT NULL, id TEXT NOT NULL, name TEXT NOT NULL, label TEXT NOT NULL, ordinal INTEGER NOT NULL, flag_a INTEGER NOT NULL, flag_b INTEGER NOT NULL, group_ids TEXT NOT NULL, PRIMARY KEY (kind, place), UNIQUE (kind, id)) STRICT",
    "CREATE TABLE accounts (id TEXT NOT NULL PRIMARY KEY, role INTEGER NOT NULL, team TEXT, token BLOB NOT NULL UNIQUE) STRICT",
    "CREATE TABLE submissions (seq INTEGER PRIMARY KEY, team INTEGER NOT NULL, k INTEGER NOT NULL, time INTEGER NOT NULL, problem TEXT NOT NULL, language TEXT NOT NULL, entry TEXT, file BLOB NOT NULL, key TEXT, UNIQUE (team, k), UNIQUE (team, key)) STRICT",
    "CREATE TABLE proposals (seq INTEGER PRIMARY KEY, team INTEGER NOT NULL, k INTEGER NOT NULL, type TEXT NOT NULL, account TEXT NOT NULL, time INTEGER NOT NULL) STRICT",
    "CREATE TABLE releases (seq INTEGER PRIMARY KEY, team INTEGER NOT NULL, k INTEGER NOT NULL, n INTEGER NOT NULL, type TEXT NOT NULL, time INTEGER NOT NULL, UNIQUE (team, k, n)) STRICT",
    "CREATE TABLE rejudgings (n INTEGER PRIMARY KEY, reason TEXT NOT NULL, state INTEGER NOT NULL) STRICT",
    "CREATE TABLE members (rejudging INTEGER NOT NULL, place INTEGER NOT NULL, team INTEGER NOT NULL, k INTEGER NOT NULL, type TEXT, account TEXT, ready INTEGER NOT NULL, PRIMARY KEY (rejudging, place)) STRICT",
    "CREATE TABLE clarifications (seq INTEGER PRIMARY KEY, audience INTEGER NOT NULL, k INTEGER NOT NULL, from_jury INTEGER NOT NULL, account TEXT NOT NULL, problem TEXT, reply TEXT, text TEXT NOT NULL, time INTEGER NOT NULL, key TEXT, UNIQUE (audience, k)) STRICT",
    "CREATE TABLE cells (audience INTEGER NOT NULL, team INTEGER NOT NULL, problem TEXT NOT NULL, judged INTEGER NOT NULL, pending INTEGER NOT NULL, solved INTEGER, penalties INTEGER NOT NULL, PRIMARY KEY (audience, team, problem)) STRICT",
];
