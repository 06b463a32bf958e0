//! The pieces of a path between its slashes.
ghost use Rattle.std.specs.Prelude.{◌≡◌, ◌<◌, IfSome, length};
ghost use Rattle.contest_operations.specs.Paths.{after_slash, before_slash, contest_piece};
ghost use Rattle.contest_operations.specs.Paths.{is_of_contest, jury_piece, object_piece, slash_at};

/// Whether a path is of a contest, or of something in it. It takes no memory.
pub fn is_of_contest(path: &[u8]) -> bool
    ensures { result ≡ is_of_contest path.now }
{
    path.starts_with(b"/contests/")
}

/// The piece of a path where the contest's id stands: `/contests/<this>/..`. It takes no memory.
pub fn contest_piece(path: &[u8]) -> &[u8]
    ensures { result.now ≡ contest_piece path.now }
{
    before_slash(after_slash(after_slash(path)))
}

/// The piece of a path of the jury's where an object's id stands: `/jury/<collection>/<this>..`. It
/// takes no memory.
pub fn jury_piece(path: &[u8]) -> &[u8]
    ensures { result.now ≡ jury_piece path.now }
{
    before_slash(after_slash(after_slash(after_slash(path))))
}

/// The piece of a path where an object's id stands: `/contests/<c>/<collection>/<this>..`. It takes
/// no memory.
pub fn object_piece(path: &[u8]) -> &[u8]
    ensures { result.now ≡ object_piece path.now }
{
    before_slash(after_slash(after_slash(after_slash(after_slash(path)))))
}

fn before_slash(path: &[u8]) -> &[u8]
    ensures { result.now ≡ before_slash path.now }
{
    match slash_at(path) {
        Some(at) => path.split_at(at).0,
        None => path,
    }
}

fn after_slash(path: &[u8]) -> &[u8]
    ensures { result.now ≡ after_slash path.now }
{
    match slash_at(path) {
        Some(at) => path.split_at(at + 1).1,
        None => &[],
    }
}

// Where the first slash stands.
fn slash_at(path: &[u8]) -> Option<usize>
    ensures place { result ≡ slash_at path.now }
    ensures within { IfSome result (λ at. at < length path.now) }
{
    path.iter().position(|byte| *byte == b'/')
}
