//! The form of a token.
ghost use Rattle.std.specs.Prelude.{◌≡◌, ◌<◌, ◌≤◌, ◌==◌, IfSome, length, not};
ghost use Rattle.std.specs.List.{list_all, position};
ghost use Rattle.contest_files.specs.Tokens.{is_token, is_token_byte, token_bytes};

/// Whether a text is a token: one or more of the letters, the digits and `-._~+/`, then any number
/// of `=` (RFC 6750, section 2.1).
pub fn is_token(text: &[u8]) -> bool
    ensures { result ≡ is_token text.now }
{
    let bytes = token_bytes(text);
    bytes > 0 && are_padding(text.split_at(bytes).1)
}

// With how many bytes of a token a text begins.
#[tactic(auto, using(crate::proofs::TokenLemmas::at_place, crate::proofs::TokenLemmas::at_end))]
fn token_bytes(text: &[u8]) -> usize
    ensures value { result ≡ token_bytes text.now }
    ensures within { result ≤ length text.now }
{
    match other_byte(text) {
        Some(at) => at,
        None => text.len(),
    }
}

// Where the first other byte stands.
fn other_byte(text: &[u8]) -> Option<usize>
    ensures place { result ≡ position (λ b. not (is_token_byte b)) text.now }
    ensures within { IfSome result (λ at. at < length text.now) }
{
    text.iter().position(|byte| !is_token_byte(*byte))
}

fn are_padding(text: &[u8]) -> bool
    ensures { result ≡ list_all (λ b. b == 61) text.now }
{
    text.iter().all(|byte| *byte == b'=')
}

fn is_token_byte(byte: u8) -> bool
    ensures { result ≡ is_token_byte byte }
{
    byte.is_ascii_alphanumeric()
        || byte == b'-'
        || byte == b'.'
        || byte == b'_'
        || byte == b'~'
        || byte == b'+'
        || byte == b'/'
}
