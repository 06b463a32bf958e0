//! Ids, of contests and of the objects in them.
ghost use Rattle.std.specs.Prelude.{◌≡◌, ℕ, List, IfOk, IfErr, OnErr, SomeIff};
ghost use Rattle.std.specs.List.{list_all};
ghost use Rattle.std.proofs.Common.{rules};
ghost use Rattle.std.specs.Str.{bytes_eq, IsAscii};
ghost use Rattle.std.specs.Cmp.{partial_order_from_own_ties};
ghost use Rattle.std.specs.Cmp.Rules.{comparing};
ghost use Rattle.std.specs.Cmp.Lexicographic.{slice_cmp};
ghost use Rattle.std.specs.Ordering.{nat_cmp, as_partial_cmp};
ghost use Rattle.contest_types.specs.IdText.{IsId, is_id, id_of, is_id_byte};

use crate::Refusal;
use crate::limits::ID_LENGTH;
use std::alloc::Global;
use std::cmp::Ordering;
use std::marker::Model;

/// What names an object of a contest in paths, files and replies (Contest API 2023-06, ID): 1 to 36
/// letters, digits, `_`, `.` or `-`, not beginning with `-` (own). Contracts see its bytes.
#[derive(Clone, Drop)]
pub struct Id {
    text: String,
}

impl Model for Id {
    ghost use Rattle.std.specs.Prelude.{List, ℕ};
    ghost use Rattle.std.specs.String.{string_bytes};
    ghost use Rattle.std.specs.List.{list_all};
    ghost use Rattle.contest_types.specs.IdText.{IsId};

    ghost Value = { List ℕ };

    ghost view = { λ id. string_bytes id.text };

    ghost invariant = { λ id. IsId (string_bytes id.text) };
}

impl Id {
    /// The id that a text spells, if it is one.
    ///
    /// # Errors
    ///
    /// Want of memory alone, and only where there is an id.
    pub fn parse(alloc: Global, text: &str) -> Result<Option<Id>, Refusal>
        ensures exact { IfOk result (λ found. SomeIff found (IsId text.now) text.now) }
        ensures value { IfOk result (λ found. found ≡ id_of text.now) }
        ensures err { IfErr result (λ e. e ≡ Refusal.Memory) }
        ensures memory { OnErr result (IsId text.now) }
    {
        if !is_id(text.as_bytes()) {
            return Ok(None);
        }
        let text = String::from_str(alloc, text)?;
        Ok(Some(Id { text }))
    }

    /// The id that bytes spell, if they spell one.
    ///
    /// # Errors
    ///
    /// Want of memory alone, and only where there is an id.
    pub fn from_bytes(alloc: Global, bytes: &[u8]) -> Result<Option<Id>, Refusal>
        ensures value { IfOk result (λ found. found ≡ id_of bytes.now) }
        ensures err { IfErr result (λ e. e ≡ Refusal.Memory) }
        ensures memory { OnErr result (IsId bytes.now) }
    {
        match std::str::from_utf8(bytes) {
            Ok(text) => Id::parse(alloc, text),
            Err(_) => Ok(None),
        }
    }

    /// The id's characters.
    pub fn as_str(&self) -> &str
        ensures text { result.now ≡ self.now }
        ensures id { IsId self.now }
    {
        self.text.as_str()
    }

    /// The id's bytes.
    pub fn as_bytes(&self) -> &[u8]
        ensures bytes { result.now ≡ self.now }
        ensures id { IsId self.now }
    {
        self.text.as_bytes()
    }
}

fn is_id_byte(byte: u8) -> bool
    ensures { result ≡ is_id_byte byte }
{
    byte.is_ascii_alphanumeric() || byte == b'_' || byte == b'.' || byte == b'-'
}

fn all_id_bytes(text: &[u8]) -> bool
    ensures { result ≡ list_all is_id_byte text.now }
{
    text.iter().all(|byte| is_id_byte(*byte))
}

/// Whether bytes spell an id. It takes no memory.
pub fn is_id(text: &[u8]) -> bool
    ensures { result ≡ is_id text.now }
{
    if text.is_empty() || text.len() > ID_LENGTH || text[0] == b'-' {
        return false;
    }
    all_id_bytes(text)
}

/// Ids are ASCII.
pub fn ids_are_ascii()
    ensures { (bytes : List ℕ) → IsId bytes → IsAscii bytes }
{}

impl PartialEq for Id {
    ghost eq = { bytes_eq };

    ghost laws = { Prim.search (comparing, rules) };

    fn eq(&self, other: &Id) -> bool {
        self.text.as_str() == other.text.as_str()
    }
}

impl Eq for Id {
    ghost laws = { Prim.search (comparing, rules) };
}

impl Ord for Id {
    ghost cmp = { slice_cmp nat_cmp };

    ghost total = { Prim.search (comparing, rules) };

    ghost matches_partial_cmp = { Prim.search (comparing, rules) };

    ghost matches_eq = { Prim.search (comparing, rules) };

    fn cmp(&self, other: &Id) -> Ordering {
        self.text.as_str().cmp(other.text.as_str())
    }
}

impl PartialOrd for Id {
    ghost partial_cmp = { as_partial_cmp (slice_cmp nat_cmp) };

    ghost laws = { partial_order_from_own_ties (Prim.search (comparing, rules))
        (Prim.search (comparing, rules)) };

    fn partial_cmp(&self, other: &Id) -> Option<Ordering> {
        Some(self.cmp(other))
    }
}
