//! The head of a reply as it is put together, without memory.
ghost use Rattle.std.specs.Prelude.{◌≡◌, ◌≤◌, ◌+◌, ◌++◌, [], length};

use std::marker::Model;

/// How many bytes a head has at most.
const MOST: usize = 512;

/// The bytes of a head so far. Contracts see them.
#[derive(Drop)]
pub(crate) struct HeadBuffer {
    bytes: [u8; MOST],
    len: usize,
}

impl Model for HeadBuffer {
    ghost use Rattle.std.specs.Prelude.{ℕ, List, take, ◌≤◌};

    ghost Value = { List ℕ };

    ghost view = { λ b. take b.len b.bytes };

    ghost invariant = { λ b. b.len ≤ 512 };
}

impl HeadBuffer {
    pub(crate) fn new() -> HeadBuffer
        ensures { result ≡ [] }
    {
        HeadBuffer {
            bytes: [0; MOST],
            len: 0,
        }
    }

    pub(crate) fn push(&mut self, piece: &[u8])
        requires { length self.old + length piece.now ≤ 512 }
        ensures text { self.new ≡ self.old ++ piece.now }
        ensures len { length self.new ≡ length self.old + length piece.now }
    {
        let end = self.len + piece.len();
        self.bytes[self.len..end].copy_from_slice(piece);
        self.len = end;
    }

    pub(crate) fn as_bytes(&self) -> &[u8]
        ensures { result.now ≡ self.now }
    {
        &self.bytes[..self.len]
    }
}
