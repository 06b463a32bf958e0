//! The option `--explain` among the words of a command.
ghost use Rattle.std.specs.Prelude.{◌≡◌, ◌<◌, IfSome, false, length};

/// The option.
const EXPLAIN: &str = "--explain";

/// Takes the option out of the words of a command, if it is among them, and answers whether it was.
/// The first word is the command's own, and what comes behind the word `--` is no option. A second
/// one stays, as an option that is given twice is refused.
pub fn take_explain(words: &mut Vec<String>) -> bool
    ensures { result ≡ false → words.new ≡ words.old }
{
    match place_of(words) {
        Some(place) => {
            drop(words.remove(place));
            true
        }
        None => false,
    }
}

// Where the option stands.
fn place_of(words: &[String]) -> Option<usize>
    ensures { IfSome result (λ place. place < length words.now) }
{
    for place in 1..words.len() {
        let word = words[place].as_str();
        if word == "--" {
            return None;
        }
        if word == EXPLAIN {
            return Some(place);
        }
    }
    None
}
