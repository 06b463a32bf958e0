//! The path that a request's target names.
ghost use Rattle.std.specs.Prelude.{◌≡◌, ◌<◌, ◌==◌, IfSome, length};
ghost use Rattle.std.specs.List.{position};
ghost use Rattle.std.specs.Option.{option_map};
ghost use Rattle.contest_http.specs.Targets.{before_query, from_slash, path_and_query, path_of};

/// The path of a target, without its query; none where the target is neither a path nor a URI of
/// HTTP (RFC 9112, section 3.2).
pub(crate) fn path_of(target: &[u8]) -> Option<&[u8]>
    ensures { option_map (λ path. path.now) result ≡ path_of target.now }
{
    match path_and_query(target) {
        Some(path) => Some(before_query(path)),
        None => None,
    }
}

fn path_and_query(target: &[u8]) -> Option<&[u8]>
    ensures { option_map (λ path. path.now) result ≡ path_and_query target.now }
{
    if target.starts_with(b"/") {
        return Some(target);
    }
    if target.starts_with(b"http://") {
        Some(from_slash(target.split_at(7).1))
    } else {
        None
    }
}

fn from_slash(rest: &[u8]) -> &[u8]
    ensures { result.now ≡ from_slash rest.now }
{
    match slash_at(rest) {
        Some(at) => rest.split_at(at).1,
        None => b"/".as_slice(),
    }
}

fn before_query(path: &[u8]) -> &[u8]
    ensures { result.now ≡ before_query path.now }
{
    match question_mark_at(path) {
        Some(at) => path.split_at(at).0,
        None => path,
    }
}

// Where the first slash stands.
fn slash_at(text: &[u8]) -> Option<usize>
    ensures place { result ≡ position (λ b. b == 47) text.now }
    ensures within { IfSome result (λ at. at < length text.now) }
{
    text.iter().position(|byte| *byte == b'/')
}

// Where the first question mark stands.
fn question_mark_at(text: &[u8]) -> Option<usize>
    ensures place { result ≡ position (λ b. b == 63) text.now }
    ensures within { IfSome result (λ at. at < length text.now) }
{
    text.iter().position(|byte| *byte == b'?')
}
