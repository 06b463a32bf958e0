//! Who looks at a contest, and which board is asked for.
ghost use Rattle.std.specs.Option.{option_map};
ghost use Rattle.contest_cli_words.specs.BoardWords.{NamesWho};

/// Who looks at a contest.
#[derive(Clone, Copy)]
pub enum Who<'a> {
    /// Anyone.
    Public,
    /// Judges and administrators.
    Jury,
    /// The team with this id.
    Team(&'a str),
}

/// How a board is written.
#[derive(Clone, Copy, PartialEq, Eq)]
pub enum BoardFormat {
    /// As a terminal shows it.
    Text,
    /// As CSV.
    Csv,
}

/// A board that is asked for.
#[derive(Clone, Copy)]
pub struct AskedBoard<'a> {
    /// Who looks at it.
    pub who: Who<'a>,
    /// The id of the group whose board it is; none for the whole board.
    pub group: Option<&'a str>,
    /// How it is written.
    pub format: BoardFormat,
}

/// Who is named; anyone where nobody is. The words win over a team's id.
pub(crate) fn who_in<'a>(text: Option<&'a str>) -> Who<'a>
    ensures { NamesWho (option_map (λ s. s.now) text.entry) result }
{
    match text {
        None => Who::Public,
        Some("public") => Who::Public,
        Some("jury") => Who::Jury,
        Some(id) => Who::Team(id),
    }
}
