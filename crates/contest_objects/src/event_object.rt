//! An event of the event feed.
ghost use Rattle.std.specs.Prelude.{◌≡◌, IfOk, option_map};
ghost use Rattle.contest_objects.specs.EventFeed.{event_line};

use crate::json_text::{Served, begin_object, end_object, text_of, write_name};
use crate::members::{Member, write_member};
use itoa::Buffer;
use json::Writer;
use std::alloc::{AllocError, Global};

/// An event (Contest API 2023-06, event feed): `data`, `id`, `token` and `type`.
#[derive(Clone, Copy)]
pub struct EventObject<'a, S> {
    /// Its number in the feed, from 1: its token.
    pub number: usize,
    /// The name of the collection that its object is of.
    pub collection: &'a str,
    /// The object's id; the contest and its state have none.
    pub id: Option<&'a str>,
    /// The object.
    pub object: &'a S,
}

impl<'a, S: Served> EventObject<'a, S> {
    /// Its line in the feed.
    ///
    /// # Errors
    ///
    /// Want of memory alone.
    #[tactic(auto, unfolding(crate::specs::EventFeed::event_line))]
    pub fn line(&self, alloc: Global) -> Result<Vec<u8>, AllocError>
        ensures { IfOk result (λ text. text.items ≡ event_line self.now.number
            (record { collection = self.now.collection.now; id = option_map (λ t. t.now) self.now.id; object = S.value self.now.object.now })) }
    {
        let mut text = text_of(alloc, self)?;
        text.push(b'\n')?;
        Ok(text)
    }
}

impl<'a, S: Served> Served for EventObject<'a, S> {
    ghost use Rattle.std.specs.Prelude.{option_map};
    ghost use Rattle.contest_objects.specs.EventFeed.{event_data};

    ghost value = { λ o. event_data o.number (record { collection = o.collection.now; id = option_map (λ t. t.now) o.id; object = S.value o.object.now }) };

    fn write(&self, out: &mut Writer) -> Result<(), AllocError> {
        let mut digits = Buffer::new();
        begin_object(out)?;
        write_name(out, "data")?;
        self.object.write(out)?;
        write_member(out, "id", Member::TextOrNull(self.id))?;
        write_member(out, "token", Member::Text(digits.format(self.number)))?;
        write_member(out, "type", Member::Text(self.collection))?;
        end_object(out)
    }
}
