//! A team asks, and the jury answers or announces.
ghost use Rattle.std.specs.Prelude.{◌≡◌, ◌&&◌, find, IfOk};
ghost use Rattle.std.specs.Option.{option_map, option_and_then};
ghost use Rattle.std.specs.Str.{bytes_eq};
ghost use Rattle.serde_json.specs.Written.{compact_text};
ghost use Rattle.contest_types.specs.Sight.{sees_clarification};
ghost use Rattle.contest_types.specs.VisibleIds.{clarification_id};
ghost use Rattle.contest_rules.specs.Clarifying.{HasAudience, heard_clarification};
ghost use Rattle.contest_postings.specs.PostClarification.{own_clarification};

use crate::posting::{Done, Posting};
use contest_lists::Lists;
use contest_objects::{ClarificationObject, has_clarification_id, text_of};
use contest_rules::{
    Decision, RuleRefusal, SaidBefore, Sender, WantedClarification, clarification_on,
    decide_clarification,
};
use contest_types::{
    Audience, Clarification, Entry, Fixed, Id, Moment, Reference, Rows, Settings,
    sees_clarification,
};
use std::alloc::{AllocError, Global};

/// What somebody writes, as whom, and by which account.
#[derive(Drop)]
pub struct Clarifying {
    /// As whom.
    pub sender: Sender,
    /// The id of the account.
    pub account: Id,
    /// What is asked for.
    pub wanted: WantedClarification,
}

impl<'a> Posting<'a> for Clarifying {
    ghost use Rattle.contest_rules.specs.Clarifying.{HasAudience, clarify};
    ghost use Rattle.contest_postings.specs.PostClarification.{said_entries, said_object};

    type Done = Decision<Clarification, SaidBefore<'a>>;

    ghost fits = { λ c x. HasAudience c.sender };

    ghost decide = { λ c now x. clarify x.fixed now c.sender c.account x.clarifications c.wanted };

    ghost object = { said_object };

    ghost entries = { said_entries };

    fn decide(
        self,
        _alloc: Global,
        lists: &'a Lists,
        now: Moment,
    ) -> Result<Result<Decision<Clarification, SaidBefore<'a>>, RuleRefusal>, AllocError> {
        let Clarifying {
            sender,
            account,
            wanted,
        } = self;
        let fixed = lists.fixed();
        let heard = heard_reply(lists, sender, &wanted.reply);
        let named = clarification_on(fixed, sender, heard, &wanted);
        Ok(decide_clarification(
            fixed,
            named,
            lists.clarifications(),
            now,
            sender,
            account,
            wanted,
        ))
    }

    fn tell(
        alloc: Global,
        fixed: &Fixed,
        done: Decision<Clarification, SaidBefore<'a>>,
    ) -> Result<Done, AllocError> {
        let mut entries = Rows::new(alloc);
        let text = match done {
            Decision::Add(clarification) => {
                let text = own_text(alloc, fixed, &clarification)?;
                entries.push(Entry::NewClarification(clarification))?;
                text
            }
            Decision::Stands(before) => own_text(alloc, fixed, before.clarification)?,
        };
        Ok(Done { text, entries })
    }
}

// The clarification as who wrote it sees it, as the jury does.
fn own_text(
    alloc: Global,
    fixed: &Fixed,
    clarification: &Clarification,
) -> Result<Vec<u8>, AllocError>
    ensures { IfOk result (λ text. text.items ≡ compact_text (own_clarification fixed.now clarification.now)) }
{
    let object = ClarificationObject {
        fixed,
        audience: Audience::Jury,
        clarification,
    };
    text_of(alloc, &object)
}

// The clarification that is answered, if one is and the sender hears it.
fn heard_reply(lists: &Lists, sender: Sender, reply: &Option<Id>) -> Option<Reference>
    ensures { HasAudience sender → result ≡ option_and_then (heard_clarification lists.now.fixed sender lists.now.clarifications) reply.now }
{
    match reply {
        None => None,
        Some(id) => heard_with_id(lists, sender, id),
    }
}

fn heard_with_id(lists: &Lists, sender: Sender, id: &Id) -> Option<Reference>
    ensures { HasAudience sender → result ≡ heard_clarification lists.now.fixed sender lists.now.clarifications id.now }
{
    let settings = &lists.fixed().settings;
    let heard = with_id(lists.clarifications(), settings, sender.audience(), id)?;
    Some(Reference {
        addressee: heard.addressee,
        number: heard.number,
    })
}

// The first that an audience hears and that has an id.
fn with_id<'a>(
    clarifications: &'a [Clarification],
    settings: &Settings,
    audience: Audience,
    id: &Id,
) -> Option<&'a Clarification>
    ensures { option_map (λ c. c.now) result ≡ find (λ c. sees_clarification audience settings.now c && bytes_eq (clarification_id c.addressee c.number) id.now) clarifications.now }
{
    clarifications.iter().find(|one| {
        sees_clarification(audience, settings, one)
            && has_clarification_id(one.addressee, one.number, id.as_bytes())
    })
}
