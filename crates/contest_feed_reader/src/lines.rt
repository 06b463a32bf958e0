//! The lines of bytes.
ghost use Rattle.std.specs.Prelude.{◌≡◌, ◌==◌, ◌<◌, IfNone, IfSome, length, not, true};
ghost use Rattle.std.specs.List.{list_all, position};
ghost use Rattle.contest_feed_reader.specs.LinesLeft.{IsSplit, is_inside};

/// What stands before the first newline, and what is behind it, if there is one.
#[tactic(auto, using(crate::proofs::LineLemmas::split_found, crate::proofs::LineLemmas::none_found))]
pub(crate) fn split_line(bytes: &[u8]) -> Option<(&[u8], &[u8])>
    ensures found { IfSome result (λ split. IsSplit bytes.now split.0.now split.1.now) }
    ensures none { IfNone result (is_inside bytes.now ≡ true) }
{
    let at = newline_in(bytes)?;
    Some((&bytes[..at], &bytes[at + 1..]))
}

// Where the first newline stands.
fn newline_in(bytes: &[u8]) -> Option<usize>
    ensures place { result ≡ position (λ b. b == 10) bytes.now }
    ensures within { IfSome result (λ at. at < length bytes.now) }
{
    bytes.iter().position(|byte| *byte == b'\n')
}
