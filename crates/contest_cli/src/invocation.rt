//! What the words ask for, by the first of them.
ghost use Rattle.std.specs.Prelude.{◌≡◌, map};
ghost use Rattle.contest_cli.specs.Commands.{asked_of, command_named, help_on, invocation_of};

use contest_cli_words::{asks_help, is_help};

/// A command of the program.
#[derive(Clone, Copy, PartialEq, Eq)]
pub enum CommandName {
    /// `replay`.
    Replay,
    /// `audit`.
    Audit,
    /// `init`.
    Init,
    /// `import`.
    Import,
    /// `board`.
    Board,
    /// `awards`.
    Awards,
    /// `export`.
    Export,
    /// `feed`.
    Feed,
    /// `serve`.
    Serve,
    /// `upgrade`.
    Upgrade,
}

/// What the words ask for.
#[derive(Clone, Copy)]
pub enum Invocation {
    /// Nothing: there are no words.
    Nothing,
    /// The program's help.
    Help,
    /// The program's version.
    Version,
    /// A command.
    To(CommandName),
    /// The help of a command.
    HelpOf(CommandName),
    /// A command that there isn't.
    Unknown,
}

/// What the words ask for, by the first of them.
pub(crate) fn invocation_of(words: &[&str]) -> Invocation
    ensures { result ≡ invocation_of (map (λ s. s.now) words.now) }
{
    if words.is_empty() {
        return Invocation::Nothing;
    }
    let name = words[0];
    if name == "help" {
        return help_on(&words[1..]);
    }
    if is_help(name) {
        return Invocation::Help;
    }
    if name == "--version" || name == "-V" {
        return Invocation::Version;
    }
    match command_named(name) {
        Some(command) => asked_of(command, &words[1..]),
        None => Invocation::Unknown,
    }
}

// What `help` is asked for: the help of the command that the next word names, else the program's.
fn help_on(words: &[&str]) -> Invocation
    ensures { result ≡ help_on (map (λ s. s.now) words.now) }
{
    if words.is_empty() {
        return Invocation::Help;
    }
    match command_named(words[0]) {
        Some(command) => Invocation::HelpOf(command),
        None => Invocation::Help,
    }
}

// The command that a word names.
fn command_named(word: &str) -> Option<CommandName>
    ensures { result ≡ command_named word.now }
{
    match word {
        "replay" => Some(CommandName::Replay),
        "audit" => Some(CommandName::Audit),
        "init" => Some(CommandName::Init),
        "import" => Some(CommandName::Import),
        "board" => Some(CommandName::Board),
        "awards" => Some(CommandName::Awards),
        "export" => Some(CommandName::Export),
        "feed" => Some(CommandName::Feed),
        "serve" => Some(CommandName::Serve),
        "upgrade" => Some(CommandName::Upgrade),
        _ => None,
    }
}

// What a command is asked for by its options.
fn asked_of(command: CommandName, options: &[&str]) -> Invocation
    ensures { result ≡ asked_of command (map (λ s. s.now) options.now) }
{
    if asks_help(options) {
        Invocation::HelpOf(command)
    } else {
        Invocation::To(command)
    }
}
