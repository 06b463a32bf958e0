//! What was read of a feed, which comes in pieces.
ghost use Rattle.std.specs.Prelude.{◌≡◌, ◌≤◌, ◌+◌, ◌++◌, ◌∷◌, ◌↔◌, ℕ, List, [], true, Ok, IfOk};
ghost use Rattle.std.specs.Prelude.{IfErr, IsTrue, OnOk, length};
ghost use Rattle.contest_files.specs.Refused.{Refuses};
ghost use Rattle.contest_feed_reader.specs.LinesLeft.{IsWithin, after_last, bytes_read, is_inside};
ghost use Rattle.contest_feed_reader.specs.LinesLeft.{tables_left, told_at};
ghost use Rattle.contest_feed_reader.specs.Tables.{after_line, tables_in};

use crate::limits::{FEED, FEED_LINE};
use crate::lines::split_line;
use crate::tables::Tables;
use contest_types::{Refusal, RowFault};
use std::alloc::Global;

/// The collections after the lines so far, and the front of the next one.
#[derive(Drop)]
pub(crate) struct Reading {
    tables: Tables,
    /// What was read of the line that hasn't ended.
    line: Vec<u8>,
    /// The number of that line, from 1.
    number: u64,
    /// How many bytes stand before it.
    before: u64,
}

impl Reading {
    /// Nothing was read yet.
    pub(crate) fn new(alloc: Global) -> Reading
        ensures all { (bytes : List ℕ) → tables_left result bytes ≡ tables_in bytes }
        ensures within { IsWithin result }
    {
        Reading {
            tables: Tables::new(alloc),
            line: Vec::new(alloc),
            number: 1,
            before: 0,
        }
    }

    /// Takes the bytes that follow what was read.
    ///
    /// # Errors
    ///
    /// The first fault: `BodyTooLarge` where a line or all of them are over their limit,
    /// `ImportRow` where a line is off its form; or want of memory. Nothing more can be read then.
    pub(crate) fn take(&mut self, alloc: Global, piece: &[u8]) -> Result<(), Refusal>
        requires { IsWithin self.old }
        ensures ok { OnOk result ((more : List ℕ) → tables_left self.old (piece.now ++ more) ≡ tables_left self.new more) }
        ensures err { IfErr result (λ e. (more : List ℕ) → Refuses e (tables_left self.old (piece.now ++ more))) }
        ensures within { OnOk result (IsWithin self.new) }
        ensures count { OnOk result (bytes_read self.new ≡ bytes_read self.old + length piece.now) }
    {
        let mut rest = piece;
        while let Some((front, back)) = split_line(rest) {
            self.take_line(alloc, front)?;
            rest = back;
        }
        self.extend(rest)
    }

    // Takes the rest of a line, and its newline.
    fn take_line(&mut self, alloc: Global, front: &[u8]) -> Result<(), Refusal>
        requires within { IsWithin self.old }
        requires inside { is_inside front.now ≡ true }
        ensures ok { OnOk result ((more : List ℕ) → tables_left self.old (front.now ++ 10 ∷ more) ≡ tables_left self.new more) }
        ensures err { IfErr result (λ e. (more : List ℕ) → Refuses e (tables_left self.old (front.now ++ 10 ∷ more))) }
        ensures within { OnOk result (IsWithin self.new) }
        ensures count { OnOk result (bytes_read self.new ≡ bytes_read self.old + length front.now + 1) }
    {
        self.extend(front)?;
        self.end_line(alloc)
    }

    // Takes bytes of a line.
    fn extend(&mut self, part: &[u8]) -> Result<(), Refusal>
        requires within { IsWithin self.old }
        requires inside { is_inside part.now ≡ true }
        ensures ok { OnOk result ((more : List ℕ) → tables_left self.old (part.now ++ more) ≡ tables_left self.new more) }
        ensures err { IfErr result (λ e. (more : List ℕ) → Refuses e (tables_left self.old (part.now ++ more))) }
        ensures within { OnOk result (IsWithin self.new) }
        ensures count { OnOk result (bytes_read self.new ≡ bytes_read self.old + length part.now) }
    {
        if !self.has_room(part.len()) {
            return Err(Refusal::BodyTooLarge);
        }
        self.line.extend_from_slice(part)?;
        Ok(())
    }

    // Whether so many bytes more of the line are within the limits.
    fn has_room(&self, count: usize) -> bool
        requires { IsWithin self.now }
        ensures { IsTrue result ↔ ((length self.now.line.items + count ≤ FEED_LINE) × (bytes_read self.now + count ≤ FEED)) }
    {
        let line = self.line.len();
        count <= FEED_LINE - line && count as u64 <= FEED - self.before - line as u64
    }

    // Takes the newline of a line.
    fn end_line(&mut self, alloc: Global) -> Result<(), Refusal>
        requires { IsWithin self.old }
        ensures ok { OnOk result ((more : List ℕ) → tables_left self.old (10 ∷ more) ≡ tables_left self.new more) }
        ensures err { IfErr result (λ e. (more : List ℕ) → Refuses e (tables_left self.old (10 ∷ more))) }
        ensures within { OnOk result (IsWithin self.new) }
        ensures count { OnOk result (bytes_read self.new ≡ bytes_read self.old + 1) }
    {
        let end = self.before + self.line.len() as u64 + 1;
        if end > FEED {
            return Err(Refusal::BodyTooLarge);
        }
        let judged = judge(&mut self.tables, alloc, self.number, &self.line);
        self.line.clear();
        self.number += 1;
        self.before = end;
        judged
    }

    /// What the feed comes to, once it has ended.
    ///
    /// # Errors
    ///
    /// The fault of the last line, where that has no newline; or want of memory.
    pub(crate) fn finish(self, alloc: Global) -> Result<Tables, Refusal>
        requires { IsWithin self }
        ensures ok { IfOk result (λ tables. tables_left self [] ≡ Ok tables) }
        ensures err { IfErr result (λ e. Refuses e (tables_left self [])) }
    {
        let mut tables = self.tables;
        let judged = judge_last(&mut tables, alloc, self.number, &self.line);
        judged.and(Ok(tables))
    }
}

// Judges the last line, if it has no newline.
fn judge_last(tables: &mut Tables, alloc: Global, number: u64, text: &[u8]) -> Result<(), Refusal>
    ensures ok { OnOk result (after_last tables.old number text.now ≡ Ok tables.new) }
    ensures err { IfErr result (λ e. Refuses e (after_last tables.old number text.now)) }
{
    if text.is_empty() {
        Ok(())
    } else {
        judge(tables, alloc, number, text)
    }
}

// Judges the line with this number.
fn judge(tables: &mut Tables, alloc: Global, number: u64, text: &[u8]) -> Result<(), Refusal>
    ensures ok { OnOk result (after_line tables.old number text.now ≡ Ok tables.new) }
    ensures err { IfErr result (λ e. Refuses e (told_at number (after_line tables.old number text.now))) }
{
    match tables.take_line(alloc, number, text) {
        Ok(()) => Ok(()),
        Err(RowFault::Fault(cause)) => Err(Refusal::ImportRow(number, cause)),
        Err(RowFault::Memory) => Err(Refusal::Memory),
    }
}
