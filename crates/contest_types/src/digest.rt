//! Digests of tokens.
ghost use Rattle.std.specs.Prelude.{◌≡◌, length};

use std::marker::Model;

/// The SHA-256 digest of a token (FIPS 180-4): 32 bytes. Contracts see its bytes.
#[derive(Clone, Copy)]
pub struct Digest {
    bytes: [u8; 32],
}

impl Model for Digest {
    ghost use Rattle.std.specs.Prelude.{◌≡◌, ℕ, List, length};

    ghost Value = { List ℕ };

    ghost view = { λ d. d.bytes };

    ghost invariant = { λ d. length d.bytes ≡ 32 };

    ghost inverse = { λ bytes. record { bytes = bytes } };
}

impl Digest {
    /// The digest with these bytes.
    pub fn new(bytes: [u8; 32]) -> Digest
        ensures { result ≡ bytes }
    {
        Digest { bytes }
    }

    /// The digest's bytes.
    pub fn as_bytes(&self) -> &[u8]
        ensures bytes { result.now ≡ self.now }
        ensures length { length self.now ≡ 32 }
    {
        self.bytes.as_slice()
    }
}
