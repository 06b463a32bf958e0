//! Awards as they are served.
use crate::json_text::Served;
use crate::members::{IdKind, Member, write_object};
use contest_types::Settings;
use json::Writer;
use std::alloc::AllocError;

/// An award (Contest API 2023-06, awards object): `citation`, `id` and `team_ids`, in the order of
/// the places.
#[derive(Clone, Copy)]
pub struct AwardObject<'a> {
    /// The contest's settings.
    pub settings: &'a Settings,
    /// Its id.
    pub id: &'a str,
    /// What it is given for.
    pub citation: &'a str,
    /// The places of the teams that have it, from 0.
    pub teams: &'a [usize],
}

impl<'a> Served for AwardObject<'a> {
    ghost use Rattle.contest_objects.specs.AwardObjects.{award_data};

    ghost value = { λ o. award_data o.settings.now o.id.now o.citation.now o.teams.now };

    fn write(&self, out: &mut Writer) -> Result<(), AllocError> {
        write_object(
            out,
            &[
                ("citation", Member::Text(self.citation)),
                ("id", Member::Text(self.id)),
                (
                    "team_ids",
                    Member::Ids(self.settings, IdKind::Team, self.teams),
                ),
            ],
        )
    }
}
