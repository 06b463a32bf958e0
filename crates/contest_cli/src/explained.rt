//! What a command with `--explain` says for people, once it was refused.

use crate::asked_words::AskedWords;
use crate::invocation::{CommandName, Invocation, invocation_of};
use contest_cli_audit::AuditWords;
use contest_cli_explain::{Asked, Ended, LastLine, explain};
use contest_cli_words::{
    AwardsWords, BoardWords, ExportWords, FeedWords, ImportWords, InitWords, ServeWords,
    UpgradeWords, borrowed, read_words, tell,
};
use contest_streams::Counted;
use std::io::Write;

/// What a command read of standard input.
#[derive(Clone, Copy)]
pub(crate) struct Input<'s> {
    /// The bytes, as far as they were kept; none if there was no memory for them.
    pub(crate) bytes: Option<&'s [u8]>,
    /// Whether it asked for any.
    pub(crate) was_read: bool,
    /// Whether a read failed.
    pub(crate) failed: bool,
}

/// Explains on standard error what a command with these words was refused for, by what it left
/// behind. Where memory is refused nothing is said.
pub(crate) fn explain_refusal<E: Write + Drop>(
    rt: &HostRuntime,
    words: &[String],
    input: &Input<'_>,
    output_failed: bool,
    err: LastLine<E>,
) {
    let ended = Ended {
        line: err.line(),
        input: input.bytes,
        input_was_read: input.was_read,
        input_failed: input.failed,
        output_failed,
    };
    if let Some(text) = explanation(rt, words, &ended) {
        let mut err = Counted::new(err);
        tell(text.as_bytes(), &mut err);
    }
}

fn explanation(rt: &HostRuntime, words: &[String], ended: &Ended<'_>) -> Option<String> {
    match borrowed(rt.alloc(), words) {
        Ok(words) => explain_words(rt, &words, ended),
        Err(_) => None,
    }
}

fn explain_words(rt: &HostRuntime, words: &[&str], ended: &Ended<'_>) -> Option<String> {
    match invocation_of(words) {
        Invocation::To(command) => explain_command(rt, command, words, ended),
        _ => None,
    }
}

fn explain_command(
    rt: &HostRuntime,
    command: CommandName,
    words: &[&str],
    ended: &Ended<'_>,
) -> Option<String> {
    match command {
        CommandName::Replay => explain(rt, Asked::Replay, ended).ok(),
        CommandName::Audit => explain_by::<AuditWords>(rt, words, ended),
        CommandName::Init => explain_by::<InitWords>(rt, words, ended),
        CommandName::Import => explain_by::<ImportWords>(rt, words, ended),
        CommandName::Board => explain_by::<BoardWords>(rt, words, ended),
        CommandName::Awards => explain_by::<AwardsWords>(rt, words, ended),
        CommandName::Export => explain_by::<ExportWords>(rt, words, ended),
        CommandName::Feed => explain_by::<FeedWords>(rt, words, ended),
        CommandName::Serve => explain_by::<ServeWords>(rt, words, ended),
        CommandName::Upgrade => explain_by::<UpgradeWords>(rt, words, ended),
    }
}

fn explain_by<'a, W: AskedWords<'a>>(
    rt: &HostRuntime,
    words: &'a [&'a str],
    ended: &Ended<'_>,
) -> Option<String> {
    match read_words::<W>(rt.alloc(), words) {
        Ok(named) => {
            let asked = named.asked();
            explain(rt, asked, ended).ok()
        }
        Err(_) => None,
    }
}
