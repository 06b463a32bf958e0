//! What the files and bodies of a contest director are made of: the records of CSV, the members of
//! JSON objects, and the values that they spell.
#![tactic(auto)]

mod csv_records;
mod fields;
mod id_arrays;
mod json_members;
mod token;

pub use csv_records::{CsvRecords, field};
pub use fields::{flag, flag_or_empty, ordinal, time_span, time_span_or_empty};
pub use id_arrays::{are_different, ids_in, items_of};
pub use json_members::{
    flag_in, flag_or_false, id_in, id_member, name_in, number_in, number_or, number_to, only_item,
    optional_id_in, present_in, text_in, value_of,
};
pub use token::is_token;
