//! A piece of a stream.
ghost use Rattle.std.specs.Prelude.{◌≡◌, ◌==◌, ◌≤◌, [], length, drop};

use std::marker::Model;

/// A piece of a stream, of which a reader takes the front. Contracts see the bytes that are left.
#[derive(Drop)]
pub struct Piece<'a> {
    bytes: &'a [u8],
}

impl<'a> Model for Piece<'a> {
    ghost use Rattle.std.specs.Prelude.{List, ℕ};

    ghost Value = { List ℕ };

    ghost view = { λ p. p.bytes.now };
}

impl<'a> Piece<'a> {
    /// A piece of which nothing was taken yet.
    pub fn new(bytes: &'a [u8]) -> Self
        ensures { result ≡ bytes.now }
    {
        Piece { bytes }
    }

    /// What is left of it.
    pub fn left(&self) -> &[u8]
        ensures { result.now ≡ self.now }
    {
        self.bytes
    }

    // Passes over its first bytes.
    pub(crate) fn pass(&mut self, count: usize)
        requires { count ≤ length self.old }
        ensures { self.new ≡ drop count self.old }
    {
        self.bytes = &self.bytes[count..];
    }
}
