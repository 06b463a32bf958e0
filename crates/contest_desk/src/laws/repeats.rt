//! Laws of posts that are repeated: functions that do nothing, and whose contracts say what holds
//! of every contest and every run.
ghost use Rattle.contest_desk.specs.Repeats.{PostsRepeatOnce, RepeatsOnce, RunsGrow};

/// Whatever is asked and imported, a contest grows: its rows stay, in front of new ones, and so
/// does its start once it has some.
pub fn runs_grow()
    ensures { RunsGrow }
{}

/// Once a post under a key is answered as done, the same post gets the same reply and adds nothing,
/// whatever is asked in between and however much later; something else under that key is refused
/// (`KeyReused`).
pub fn posts_repeat_once()
    ensures { PostsRepeatOnce }
{}

/// Once a request that posts under a key is answered as done, any account of the sender that posts
/// the same under that key gets the first reply; one that posts something else gets `KeyReused`.
/// Neither changes anything.
pub fn repeats_once()
    ensures { RepeatsOnce }
{}
