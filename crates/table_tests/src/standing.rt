//! What stands in a database is told apart: nothing, the tables of a desk, others.
use contest_store::StoreError;
use contest_store_tables::{LaterTable, Standing, Tables};
use sqlite::{Connection, MemStore};
use std::alloc::Global;

/// The statements that came after a desk's tables were made, if they were.
struct Case {
    is_made: bool,
    statements: &'static [&'static str],
    standing: Standing,
}

const DROP: &str = "DROP TABLE notices";

static CASES: [Case; 15] = [
    Case {
        is_made: false,
        statements: &[],
        standing: Standing::Bare,
    },
    Case {
        is_made: true,
        statements: &[],
        standing: Standing::Desk,
    },
    Case {
        is_made: false,
        statements: &[
            "CREATE TABLE desk (one INTEGER PRIMARY KEY, version INTEGER NOT NULL) STRICT",
        ],
        standing: Standing::Foreign,
    },
    Case {
        is_made: true,
        statements: &["CREATE TABLE notes (n INTEGER PRIMARY KEY)"],
        standing: Standing::Foreign,
    },
    Case {
        is_made: true,
        statements: &["CREATE INDEX by_time ON submissions (time)"],
        standing: Standing::Foreign,
    },
    Case {
        is_made: true,
        statements: &["CREATE VIEW versions AS SELECT version FROM desk"],
        standing: Standing::Foreign,
    },
    // without the clarifications of today
    Case {
        is_made: true,
        statements: &[DROP],
        standing: Standing::Lacking(LaterTable::Notices),
    },
    // and without the cells
    Case {
        is_made: true,
        statements: &[DROP, "DROP TABLE cells"],
        standing: Standing::Lacking(LaterTable::Cells),
    },
    // without the cells alone
    Case {
        is_made: true,
        statements: &["DROP TABLE cells"],
        standing: Standing::Celless,
    },
    // and without another that was made before
    Case {
        is_made: true,
        statements: &["DROP TABLE members", "DROP TABLE cells"],
        standing: Standing::Foreign,
    },
    // without the cells, and with the notices in their place
    Case {
        is_made: true,
        statements: &[
            DROP,
            "DROP TABLE cells",
            "CREATE TABLE notices (seq INTEGER PRIMARY KEY, kind INTEGER NOT NULL, number INTEGER NOT NULL, k INTEGER NOT NULL, from_jury INTEGER NOT NULL, account TEXT NOT NULL, problem TEXT, reply TEXT, text TEXT NOT NULL, time INTEGER NOT NULL, key TEXT, UNIQUE (kind, number, k)) STRICT",
        ],
        standing: Standing::Celless,
    },
    // and without the clarifications of the first schema
    Case {
        is_made: true,
        statements: &[DROP, "DROP TABLE cells", "DROP TABLE clarifications"],
        standing: Standing::Foreign,
    },
    // as it was
    Case {
        is_made: true,
        statements: &[
            DROP,
            "CREATE TABLE notices (seq INTEGER PRIMARY KEY, kind INTEGER NOT NULL, number INTEGER NOT NULL, k INTEGER NOT NULL, from_jury INTEGER NOT NULL, account TEXT NOT NULL, problem TEXT, reply TEXT, text TEXT NOT NULL, time INTEGER NOT NULL, key TEXT, UNIQUE (kind, number, k)) STRICT",
        ],
        standing: Standing::Desk,
    },
    // with one more column
    Case {
        is_made: true,
        statements: &[
            DROP,
            "CREATE TABLE notices (seq INTEGER PRIMARY KEY, kind INTEGER NOT NULL, number INTEGER NOT NULL, k INTEGER NOT NULL, from_jury INTEGER NOT NULL, account TEXT NOT NULL, problem TEXT, reply TEXT, text TEXT NOT NULL, time INTEGER NOT NULL, key TEXT, more TEXT, UNIQUE (kind, number, k)) STRICT",
        ],
        standing: Standing::Foreign,
    },
    // with a kind that may be missing
    Case {
        is_made: true,
        statements: &[
            DROP,
            "CREATE TABLE notices (seq INTEGER PRIMARY KEY, kind INTEGER, number INTEGER NOT NULL, k INTEGER NOT NULL, from_jury INTEGER NOT NULL, account TEXT NOT NULL, problem TEXT, reply TEXT, text TEXT NOT NULL, time INTEGER NOT NULL, key TEXT, UNIQUE (kind, number, k)) STRICT",
        ],
        standing: Standing::Foreign,
    },
];

fn open(alloc: Global) -> Result<Tables<MemStore>, StoreError> {
    match Connection::open_in_memory(alloc) {
        Ok(conn) => Ok(Tables::new(conn)),
        Err(_) => Err(StoreError::Memory),
    }
}

fn made(alloc: Global, is_made: bool) -> Result<Connection<MemStore>, StoreError> {
    let mut tables = open(alloc)?;
    if is_made {
        tables.begin()?;
        tables.make()?;
        tables.commit()?;
    }
    Ok(tables.into_connection())
}

fn standing(alloc: Global, case: &Case) -> Result<Standing, StoreError> {
    let mut conn = made(alloc, case.is_made)?;
    for statement in case.statements {
        if conn.execute(statement, &[]).is_err() {
            return Err(StoreError::Fault);
        }
    }
    Ok(Tables::new(conn).standing())
}

/// No table, index, view or column more than a desk has, and none less.
#[test]
fn others_are_foreign(rt: HostRuntime) {
    for case in &CASES {
        let found = standing(rt.alloc(), case);
        assert!(rt; found == Ok(case.standing));
    }
}

fn is_within(alloc: Global) -> Result<(bool, bool), StoreError> {
    let mut tables = open(alloc)?;
    let before = tables.is_in_transaction();
    tables.begin()?;
    Ok((before, tables.is_in_transaction()))
}

/// A transaction stands once it is begun.
#[test]
fn a_transaction_stands(rt: HostRuntime) {
    let within = is_within(rt.alloc());
    assert!(rt; within == Ok((false, true)));
}
