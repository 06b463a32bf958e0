//! Requests and imports, one after another.
ghost use Rattle.std.specs.Prelude.{◌≡◌, ◌≤◌, ◌⊎◌, All, Option, IfOk, IsFalse, IsTrue, OnErr};
ghost use Rattle.contest_types.specs.State.{ContestState};
ghost use Rattle.contest_streams.specs.Streams.{Failed};
ghost use Rattle.contest_desk.specs.Doing.{DoesOrFails};
ghost use Rattle.contest_desk.specs.Items.{IsFaultAnswer, IsStoreAnswer, item_entries, item_step};
ghost use Rattle.contest_desk.specs.Runs.{CountsAnswers, LeavesAfter, RunsTo};

use crate::{Answer, Desk, Item};
use contest_store::ContestStore;
use std::alloc::{AllocError, Global};

impl<S: ContestStore> Desk<S> {
    /// Handles requests and imports files one after another, and gives the answers in order. What
    /// was answered before a failure is not lost by it: a crash leaves the contest of the last item
    /// that was answered (where none was, what it could leave before), or that of one which failed
    /// since.
    ///
    /// # Errors
    ///
    /// Want of memory alone, before the first item: nothing is done then.
    pub fn run(&mut self, alloc: Global, items: Vec<Item>) -> Result<Vec<Answer>, AllocError>
        ensures run { (S.kept self.new).is_clean → IfOk result (λ answers. RunsTo (S.kept self.old) (S.kept self.new) items.items answers.items) }
        ensures crash { (S.kept self.new).is_clean → IfOk result (λ answers. (c : Option ContestState) → (S.kept self.new).may_leave c
            → LeavesAfter (S.kept self.old).may_leave (S.kept self.old).contest items.items answers.items c) }
        ensures open { (S.kept self.new).is_clean → IfOk result (λ answers. All (λ answer. ¬ IsStoreAnswer answer) answers.items → IsTrue (S.kept self.old).is_open → IsTrue (S.kept self.new).is_open) }
        ensures faults { IfOk result (λ answers. CountsAnswers answers.items (S.kept self.old).faults (S.kept self.new).faults) }
        ensures clean { (S.kept self.new).is_clean → (S.kept self.old).is_clean }
        ensures up { (S.kept self.new).is_clean → IsTrue (S.kept self.new).is_open → IsTrue (S.kept self.old).is_open }
        ensures shuts { (S.kept self.new).is_clean → IsTrue (S.kept self.old).is_open → IsTrue (S.kept self.new).is_open ⊎ Failed (S.kept self.old).troubles (S.kept self.new).troubles }
        ensures troubles { (S.kept self.old).troubles ≤ (S.kept self.new).troubles }
        ensures early { OnErr result (self.new ≡ self.old) }
    {
        let mut answers = Vec::with_capacity(alloc, items.len())?;
        for item in items {
            let answer = self.perform(alloc, item);
            match answers.push(answer) {
                Ok(()) => {}
                Err(_) => unreachable!(),
            }
        }
        Ok(answers)
    }

    // Handles one request, or imports one file.
    fn perform(&mut self, alloc: Global, item: Item) -> Answer
        ensures answer { (S.kept self.new).is_clean → ¬ IsStoreAnswer result → result ≡ (item_step (S.kept self.old).contest item).0 }
        ensures leaves { DoesOrFails (S.kept self.old) (S.kept self.new) (item_step (S.kept self.old).contest item).1
            (item_entries (S.kept self.old).contest item) (IsStoreAnswer result) (IsFaultAnswer result) }
    {
        match item {
            Item::Request(asked) => {
                Answer::Reply(self.handle(alloc, asked.now, asked.credential, asked.request))
            }
            Item::Import(asked) => {
                Answer::Imported(self.import(alloc, asked.now, asked.kind, asked.file.as_slice()))
            }
        }
    }
}
