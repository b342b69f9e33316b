//! Values of a fixed number of bytes: identifiers and nonces.
ghost use Rattle.std.specs.Prelude.{◌≡◌, ◌*◌, ◌↔◌, length, IfOk, IsOk};
ghost use Rattle.std.specs.List.{AllPass};
ghost use Rattle.std.specs.String.{string_bytes};
ghost use Rattle.hex.specs.Hex.{decode_of, encode_lower, is_hex_digit};

use hex::FromHex;
use std::alloc::{AllocError, Global};
use std::hash::{Hash, Hasher};
use std::marker::Model;
use thiserror::Error;

/// A value of exactly `N` bytes. Contracts see the list of its bytes.
#[derive(Clone, Copy, PartialEq, Eq, PartialOrd, Ord, Debug)]
pub struct Fixed<const N: usize>(pub [u8; N]);

impl<const N: usize> Model for Fixed<N> {
    ghost use Rattle.std.specs.Prelude.{◌≡◌, List, ℕ, length};

    ghost Value = { List ℕ };

    ghost view = { λ a. a.0 };

    ghost invariant = { λ a. length a.0 ≡ N };

    ghost inverse = { λ bytes. record { 0 = bytes } };
}

// All bytes are fed at once: a table looks an id up several times for each message.
impl<const N: usize> Hash for Fixed<N> {
    ghost use Rattle.std.specs.Prelude.{◌∷◌, []};
    ghost use Rattle.std.specs.Cmp.Rules.{hashing};
    ghost use Rattle.std.proofs.Common.{rules};

    ghost hash_input = { λ id. id ∷ [] };

    ghost respects_eq = { Prim.search (hashing, rules) };

    fn hash<H: Hasher>(&self, state: &mut H) {
        state.write(&self.0);
    }
}

/// The identifier of a message (BSP, "Message identifiers").
pub type MessageId = Fixed<32>;

/// The identifier of a group (BSP, "Group identifiers").
pub type GroupId = Fixed<32>;

/// The random bytes by which the two ends of a link choose one of several (this project's profile).
pub type Nonce = Fixed<16>;

/// The text is not the bytes' number of hexadecimal digits.
#[derive(Clone, Copy, Debug, PartialEq, Eq, Error)]
#[error("not the right number of hexadecimal digits")]
pub struct NotHex;

impl<const N: usize> Fixed<N> {
    // Shows the prover that there are `N` bytes. It does nothing.
    pub(crate) fn show_len(&self)
        ensures { length self.now ≡ N }
    {
        let _ = self.as_bytes();
    }

    /// The bytes.
    pub fn as_bytes(&self) -> &[u8; N]
        ensures value { result.now ≡ self.now }
        ensures len { length result.now ≡ N }
    {
        &self.0
    }

    /// The bytes as `2 N` hexadecimal digits in lower case. It fails only for want of memory.
    pub fn to_hex(&self, alloc: Global) -> Result<String, AllocError>
        ensures { IfOk result (λ text. string_bytes text ≡ encode_lower self.now) }
    {
        hex::encode(alloc, self.0)
    }

    /// The value that `text` spells. `NotHex` comes exactly where the text is not `2 N` hexadecimal
    /// digits of either case.
    pub fn from_hex(text: &str) -> Result<Self, NotHex>
        ensures value { IfOk result (λ id. decode_of text.now ≡ Ok id) }
        ensures accepted { IsOk result ↔ ((length text.now ≡ 2 * N)
            × AllPass is_hex_digit text.now) }
    {
        match <[u8; N] as FromHex>::from_hex(text) {
            Ok(bytes) => Ok(Fixed(bytes)),
            Err(_) => Err(NotHex),
        }
    }
}
