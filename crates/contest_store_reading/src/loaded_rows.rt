//! The rows of all tables of a contest.
use sqlite::Row;

/// The rows of the tables of the lists as a load gives them, each table's in the order of its key;
/// of a submission's file only its type and its size.
#[derive(Drop)]
pub struct LoadedRows {
    pub desk: Vec<Row>,
    pub contest: Vec<Row>,
    pub items: Vec<Row>,
    pub accounts: Vec<Row>,
    pub submissions: Vec<Row>,
    pub proposals: Vec<Row>,
    pub releases: Vec<Row>,
    pub rejudgings: Vec<Row>,
    pub members: Vec<Row>,
    pub clarifications: Vec<Row>,
    pub notices: Vec<Row>,
}
