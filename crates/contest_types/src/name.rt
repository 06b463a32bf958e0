//! Names: of contests, problems and teams, and labels, entry points and reasons.
ghost use Rattle.std.specs.Prelude.{◌≡◌, Some, IfOk, IfErr, OnErr, IsTrue, IsSome};
ghost use Rattle.std.specs.List.{list_all};
ghost use Rattle.std.specs.Str.{bytes_eq, chars};
ghost use Rattle.std.proofs.Common.{rules};
ghost use Rattle.std.specs.Cmp.{partial_order_from_own_ties};
ghost use Rattle.std.specs.Cmp.Rules.{comparing};
ghost use Rattle.std.specs.Cmp.Lexicographic.{slice_cmp};
ghost use Rattle.std.specs.Ordering.{nat_cmp, as_partial_cmp};
ghost use Rattle.contest_types.specs.NameText.{is_plain, is_name, name_of, name_from};

use crate::Refusal;
use crate::limits::NAME_LENGTH;
use std::alloc::Global;
use std::cmp::Ordering;
use std::marker::Model;

/// A name: 1 to 200 bytes of UTF-8 without control characters. Contracts see its bytes.
#[derive(Clone, Drop)]
pub struct Name {
    text: String,
}

impl Model for Name {
    ghost use Rattle.std.specs.Prelude.{List, ℕ, IsTrue};
    ghost use Rattle.std.specs.String.{string_bytes};
    ghost use Rattle.contest_types.specs.NameText.{is_name};

    ghost Value = { List ℕ };

    ghost view = { λ n. string_bytes n.text };

    ghost invariant = { λ n. IsTrue (is_name (string_bytes n.text)) };
}

impl Name {
    /// The name that a text is, if it is one.
    ///
    /// # Errors
    ///
    /// Want of memory alone, and only where there is a name.
    pub fn parse(alloc: Global, text: &str) -> Result<Option<Name>, Refusal>
        ensures value { IfOk result (λ found. found ≡ name_of text.now) }
        ensures err { IfErr result (λ e. e ≡ Refusal.Memory) }
        ensures memory { OnErr result (IsTrue (is_name text.now)) }
    {
        if text.is_empty() || text.len() > NAME_LENGTH || !all_plain(text) {
            return Ok(None);
        }
        let text = String::from_str(alloc, text)?;
        Ok(Some(Name { text }))
    }

    /// The name that bytes spell, if they are UTF-8 and spell one.
    ///
    /// # Errors
    ///
    /// Want of memory alone, and only where there is a name.
    pub fn from_bytes(alloc: Global, bytes: &[u8]) -> Result<Option<Name>, Refusal>
        ensures value { IfOk result (λ found. found ≡ name_from bytes.now) }
        ensures err { IfErr result (λ e. e ≡ Refusal.Memory) }
        ensures memory { OnErr result (IsSome (name_from bytes.now)) }
    {
        match std::str::from_utf8(bytes) {
            Ok(text) => Name::parse(alloc, text),
            Err(_) => Ok(None),
        }
    }

    /// The name's characters.
    pub fn as_str(&self) -> &str
        ensures text { result.now ≡ self.now }
        ensures name { name_from self.now ≡ Some self.now }
    {
        self.text.as_str()
    }
}

fn all_plain(text: &str) -> bool
    ensures { result ≡ list_all is_plain (chars text.now) }
{
    text.chars().all(|c| is_plain(c))
}

fn is_plain(c: char) -> bool
    ensures { result ≡ is_plain c }
{
    !(c < ' ' || ('\u{7f}'..='\u{9f}').contains(&c))
}

impl PartialEq for Name {
    ghost eq = { bytes_eq };

    ghost laws = { Prim.search (comparing, rules) };

    fn eq(&self, other: &Name) -> bool {
        self.text.as_str() == other.text.as_str()
    }
}

impl Eq for Name {
    ghost laws = { Prim.search (comparing, rules) };
}

impl Ord for Name {
    ghost cmp = { slice_cmp nat_cmp };

    ghost total = { Prim.search (comparing, rules) };

    ghost matches_partial_cmp = { Prim.search (comparing, rules) };

    ghost matches_eq = { Prim.search (comparing, rules) };

    fn cmp(&self, other: &Name) -> Ordering {
        self.text.as_str().cmp(other.text.as_str())
    }
}

impl PartialOrd for Name {
    ghost partial_cmp = { as_partial_cmp (slice_cmp nat_cmp) };

    ghost laws = { partial_order_from_own_ties (Prim.search (comparing, rules))
        (Prim.search (comparing, rules)) };

    fn partial_cmp(&self, other: &Name) -> Option<Ordering> {
        Some(self.cmp(other))
    }
}
