//! Which teams a board shows.
ghost use Rattle.std.specs.Prelude.{◌≡◌, ℕ, ◌<◌, Bool};
ghost use Rattle.contest_score.specs.Ranking.{is_on_board};

use contest_types::{Settings, is_of_group, is_public};

/// A set of teams that a board shows and ranks among each other.
pub trait Shown {
    /// Whether the team at a place is in the set.
    ghost is_shown: { Self → ℕ → Bool };

    /// Whether the team at a place in the settings, from 0, is in the set.
    fn is_shown(&self, team: usize) -> bool
        ensures { result ≡ is_shown self.now team };
}

/// The teams of a board: those that aren't hidden, or those of them that are in a group.
#[derive(Drop)]
pub struct BoardTeams<'a> {
    /// The settings that list them.
    pub settings: &'a Settings,
    /// The group's place in the settings, from 0, if it is a group's board.
    pub group: Option<usize>,
}

impl Shown for BoardTeams<'_> {
    ghost is_shown = { λ p. is_on_board p.settings.now p.group };

    fn is_shown(&self, team: usize) -> bool {
        match self.group {
            Some(group) => {
                is_public(self.settings, team) && is_of_group(self.settings, group, team)
            }
            None => is_public(self.settings, team),
        }
    }
}
