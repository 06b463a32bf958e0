//! The texts of the statements on the tables.
ghost use Rattle.contest_store_tables.specs.Celless.{DropsMoved, LoadsMoved};
ghost use Rattle.contest_store_tables.specs.Changes.{Changes};
ghost use Rattle.contest_store_tables.specs.Making.{Creates};
ghost use Rattle.contest_store_tables.specs.Clearing.{Clears};
ghost use Rattle.contest_store_tables.specs.Statements.{Inserts, Loads, FindsFile};
ghost use Rattle.contest_store_tables.specs.declared.later_table.LaterTable.{LaterTable};
ghost use Rattle.contest_store_tables.specs.declared.table_name.TableName.TheVariants.{Clarifications};

use crate::{RowChange, TableName};

/// The statement that makes a table, where those before it are made.
pub(crate) fn create_text(table: TableName) -> &'static str
    ensures { Creates table result.now }
{
    match table {
        TableName::Desk =>
            "CREATE TABLE desk (one INTEGER PRIMARY KEY, version INTEGER NOT NULL) STRICT",
        TableName::Contest =>
            "CREATE TABLE contest (one INTEGER PRIMARY KEY, id TEXT NOT NULL, name TEXT NOT NULL, duration INTEGER NOT NULL, freeze INTEGER, penalty INTEGER NOT NULL, verification INTEGER NOT NULL, gold INTEGER NOT NULL, silver INTEGER NOT NULL, bronze INTEGER NOT NULL, start INTEGER, thaw INTEGER, finalized INTEGER) STRICT",
        TableName::Items =>
            "CREATE TABLE items (kind INTEGER NOT NULL, place INTEGER NOT NULL, id TEXT NOT NULL, name TEXT NOT NULL, label TEXT NOT NULL, ordinal INTEGER NOT NULL, flag_a INTEGER NOT NULL, flag_b INTEGER NOT NULL, group_ids TEXT NOT NULL, PRIMARY KEY (kind, place), UNIQUE (kind, id)) STRICT",
        TableName::Accounts =>
            "CREATE TABLE accounts (id TEXT NOT NULL PRIMARY KEY, role INTEGER NOT NULL, team TEXT, token BLOB NOT NULL UNIQUE) STRICT",
        TableName::Submissions =>
            "CREATE TABLE submissions (seq INTEGER PRIMARY KEY, team INTEGER NOT NULL, k INTEGER NOT NULL, time INTEGER NOT NULL, problem TEXT NOT NULL, language TEXT NOT NULL, entry TEXT, file BLOB NOT NULL, key TEXT, UNIQUE (team, k), UNIQUE (team, key)) STRICT",
        TableName::Proposals =>
            "CREATE TABLE proposals (seq INTEGER PRIMARY KEY, team INTEGER NOT NULL, k INTEGER NOT NULL, type TEXT NOT NULL, account TEXT NOT NULL, time INTEGER NOT NULL) STRICT",
        TableName::Releases =>
            "CREATE TABLE releases (seq INTEGER PRIMARY KEY, team INTEGER NOT NULL, k INTEGER NOT NULL, n INTEGER NOT NULL, type TEXT NOT NULL, time INTEGER NOT NULL, UNIQUE (team, k, n)) STRICT",
        TableName::Rejudgings =>
            "CREATE TABLE rejudgings (n INTEGER PRIMARY KEY, reason TEXT NOT NULL, state INTEGER NOT NULL) STRICT",
        TableName::Members =>
            "CREATE TABLE members (rejudging INTEGER NOT NULL, place INTEGER NOT NULL, team INTEGER NOT NULL, k INTEGER NOT NULL, type TEXT, account TEXT, ready INTEGER NOT NULL, PRIMARY KEY (rejudging, place)) STRICT",
        TableName::Clarifications =>
            "CREATE TABLE clarifications (seq INTEGER PRIMARY KEY, audience INTEGER NOT NULL, k INTEGER NOT NULL, from_jury INTEGER NOT NULL, account TEXT NOT NULL, problem TEXT, reply TEXT, text TEXT NOT NULL, time INTEGER NOT NULL, key TEXT, UNIQUE (audience, k)) STRICT",
        TableName::Cells =>
            "CREATE TABLE cells (audience INTEGER NOT NULL, team INTEGER NOT NULL, problem TEXT NOT NULL, judged INTEGER NOT NULL, pending INTEGER NOT NULL, solved INTEGER, penalties INTEGER NOT NULL, PRIMARY KEY (audience, team, problem)) STRICT",
        TableName::Notices =>
            "CREATE TABLE notices (seq INTEGER PRIMARY KEY, kind INTEGER NOT NULL, number INTEGER NOT NULL, k INTEGER NOT NULL, from_jury INTEGER NOT NULL, account TEXT NOT NULL, problem TEXT, reply TEXT, text TEXT NOT NULL, time INTEGER NOT NULL, key TEXT, UNIQUE (kind, number, k)) STRICT",
    }
}

/// The statement that inserts a row.
pub(crate) fn insert_text(table: TableName) -> &'static str
    ensures { Inserts table result.now }
{
    match table {
        TableName::Desk => "INSERT INTO desk (one, version) VALUES (?1, ?2)",
        TableName::Contest =>
            "INSERT INTO contest (one, id, name, duration, freeze, penalty, verification, gold, silver, bronze, start, thaw, finalized) VALUES (?1, ?2, ?3, ?4, ?5, ?6, ?7, ?8, ?9, ?10, ?11, ?12, ?13)",
        TableName::Items =>
            "INSERT INTO items (kind, place, id, name, label, ordinal, flag_a, flag_b, group_ids) VALUES (?1, ?2, ?3, ?4, ?5, ?6, ?7, ?8, ?9)",
        TableName::Accounts =>
            "INSERT INTO accounts (id, role, team, token) VALUES (?1, ?2, ?3, ?4)",
        TableName::Submissions =>
            "INSERT INTO submissions (seq, team, k, time, problem, language, entry, file, key) VALUES (?1, ?2, ?3, ?4, ?5, ?6, ?7, ?8, ?9)",
        TableName::Proposals =>
            "INSERT INTO proposals (seq, team, k, type, account, time) VALUES (?1, ?2, ?3, ?4, ?5, ?6)",
        TableName::Releases =>
            "INSERT INTO releases (seq, team, k, n, type, time) VALUES (?1, ?2, ?3, ?4, ?5, ?6)",
        TableName::Rejudgings => "INSERT INTO rejudgings (n, reason, state) VALUES (?1, ?2, ?3)",
        TableName::Members =>
            "INSERT INTO members (rejudging, place, team, k, type, account, ready) VALUES (?1, ?2, ?3, ?4, ?5, ?6, ?7)",
        TableName::Clarifications =>
            "INSERT INTO clarifications (seq, audience, k, from_jury, account, problem, reply, text, time, key) VALUES (?1, ?2, ?3, ?4, ?5, ?6, ?7, ?8, ?9, ?10)",
        TableName::Cells =>
            "INSERT INTO cells (audience, team, problem, judged, pending, solved, penalties) VALUES (?1, ?2, ?3, ?4, ?5, ?6, ?7)",
        TableName::Notices =>
            "INSERT INTO notices (seq, kind, number, k, from_jury, account, problem, reply, text, time, key) VALUES (?1, ?2, ?3, ?4, ?5, ?6, ?7, ?8, ?9, ?10, ?11)",
    }
}

/// The statement that loads a table in the order of its key.
pub(crate) fn load_text(table: TableName) -> &'static str
    ensures { Loads table result.now }
{
    match table {
        TableName::Desk => "SELECT one, version FROM desk ORDER BY one",
        TableName::Contest =>
            "SELECT one, id, name, duration, freeze, penalty, verification, gold, silver, bronze, start, thaw, finalized FROM contest ORDER BY one",
        TableName::Items =>
            "SELECT kind, place, id, name, label, ordinal, flag_a, flag_b, group_ids FROM items ORDER BY kind, place",
        TableName::Accounts => "SELECT id, role, team, token FROM accounts ORDER BY id",
        TableName::Submissions =>
            "SELECT seq, team, k, time, problem, language, entry, typeof(file), length(file), key FROM submissions ORDER BY seq",
        TableName::Proposals =>
            "SELECT seq, team, k, type, account, time FROM proposals ORDER BY seq",
        TableName::Releases => "SELECT seq, team, k, n, type, time FROM releases ORDER BY seq",
        TableName::Rejudgings => "SELECT n, reason, state FROM rejudgings ORDER BY n",
        TableName::Members =>
            "SELECT rejudging, place, team, k, type, account, ready FROM members ORDER BY rejudging, place",
        TableName::Clarifications =>
            "SELECT seq, audience <> 0, audience, k, from_jury, account, problem, reply, text, time, key FROM clarifications ORDER BY seq",
        TableName::Cells =>
            "SELECT audience, team, problem, judged, pending, solved, penalties FROM cells ORDER BY audience, team, problem",
        TableName::Notices =>
            "SELECT seq, kind, number, k, from_jury, account, problem, reply, text, time, key FROM notices ORDER BY seq",
    }
}

/// The statement that changes a row.
pub(crate) fn change_text(change: RowChange) -> &'static str
    ensures { Changes change result.now }
{
    match change {
        RowChange::Version => "UPDATE desk SET version = ?2 WHERE one = ?1",
        RowChange::Marks =>
            "UPDATE contest SET start = ?2, thaw = ?3, finalized = ?4 WHERE one = ?1",
        RowChange::Duration => "UPDATE contest SET duration = ?2, freeze = ?3 WHERE one = ?1",
        RowChange::ItemName => "UPDATE items SET name = ?3 WHERE kind = ?1 AND place = ?2",
        RowChange::Digest => "UPDATE accounts SET token = ?2 WHERE id = ?1",
        RowChange::RejudgingState => "UPDATE rejudgings SET state = ?2 WHERE n = ?1",
        RowChange::MemberState =>
            "UPDATE members SET type = ?3, account = ?4, ready = ?5 WHERE rejudging = ?1 AND place = ?2",
        RowChange::Cell =>
            "UPDATE cells SET judged = ?4, pending = ?5, solved = ?6, penalties = ?7 WHERE audience = ?1 AND team = ?2 AND problem = ?3",
    }
}

/// The statement that takes all rows out of `Clarifications`.
pub(crate) fn clear_text() -> &'static str
    ensures { Clears Clarifications result.now }
{
    "DELETE FROM clarifications"
}

/// The statement that loads the notices in the order of their key, where the table of the cells was
/// taken out.
pub(crate) fn moved_text() -> &'static str
    ensures { (place : LaterTable) → LoadsMoved place result.now }
{
    "SELECT seq, kind, number, k, from_jury, account, problem, reply, text, time, key FROM notices ORDER BY seq"
}

/// The statement that takes the table of the notices out there.
pub(crate) fn drop_text() -> &'static str
    ensures { (place : LaterTable) → DropsMoved place result.now }
{
    "DROP TABLE notices"
}

/// The statement that finds the file of a submission by its team and its number.
pub(crate) fn file_text() -> &'static str
    ensures { FindsFile result.now }
{
    "SELECT file FROM submissions WHERE team = ?1 AND k = ?2"
}
