//! The ids of a collection, as a set.
ghost use Rattle.std.specs.Prelude.{◌≡◌, IfOk};
ghost use Rattle.contest_types.specs.Places.{is_among};
ghost use Rattle.contest_feed_reader.specs.IdSets.{IsIdSet, is_in_set};
ghost use Rattle.contest_feed_reader.specs.References.{ids_of};

use crate::row::Row;
use contest_types::Id;
use std::alloc::{AllocError, Global};
use std::collections::HashSet;

/// Ids that stand in a collection.
pub(crate) type IdSet<'r> = HashSet<&'r str>;

/// The ids of rows.
///
/// # Errors
///
/// Want of memory alone.
pub(crate) fn ids_of<T>(alloc: Global, rows: &[Row<T>]) -> Result<IdSet<'_>, AllocError>
    ensures { IfOk result (λ ids. IsIdSet ids (ids_of rows.now)) }
{
    let mut ids = HashSet::new(alloc);
    for row in rows {
        ids.insert(row.id.as_str())?;
    }
    Ok(ids)
}

/// Whether an id is one of a set.
pub(crate) fn stands(ids: &IdSet<'_>, id: &Id) -> bool
    ensures { result ≡ is_in_set ids.now id.now }
{
    ids.contains(id.as_str())
}
