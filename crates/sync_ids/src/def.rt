//! The definition of a group.
ghost use Rattle.std.specs.Prelude.{◌≡◌, ◌<◌, ◌≤◌, ◌↔◌, ◌⊎◌, length, vec_len, IfOk, IsErrOf, IsTrue};
ghost use Rattle.std.specs.String.{string_bytes, string_len};

use std::alloc::{AllocError, Global};
use std::marker::Model;
use thiserror::Error;

/// The greatest length of a client's name, in bytes of UTF-8.
pub const MAX_NAME: usize = 255;

/// The greatest length of a descriptor, in bytes.
pub const MAX_DESCRIPTOR: usize = 16_384;

/// The definition of a group: its client's name and major version, and the client's descriptor.
/// Contracts see a record of the name's bytes, the version and the descriptor.
#[derive(Debug, Drop)]
pub struct GroupDef {
    name: String,
    major: u32,
    descriptor: Vec<u8>,
}

impl Model for GroupDef {
    ghost use Rattle.std.specs.String.{string_bytes};
    ghost use Rattle.sync_ids.specs.Values.{GroupValue, IsGroupDef};

    ghost Value = { GroupValue };

    ghost view = { λ d. record {
      name = string_bytes d.name;
      major = d.major;
      descriptor =
          d.descriptor.items;
    } };

    ghost invariant = { λ d. IsGroupDef
        (record { name = string_bytes d.name; major = d.major; descriptor = d.descriptor.items }) };
}

// Two definitions are equal where all their parts are.
impl PartialEq for GroupDef {
    ghost use Rattle.std.specs.Prelude.{◌&&◌, nat_eq};
    ghost use Rattle.std.specs.Cmp.Lexicographic.{pointwise};
    ghost use Rattle.std.specs.Cmp.Rules.{comparing};
    ghost use Rattle.std.specs.Ordering.{eq_of_both, on};
    ghost use Rattle.std.proofs.Common.{rules};

    ghost eq = { eq_of_both (on (λ d. d.name) (pointwise nat_eq))
        (eq_of_both (on (λ d. d.major) nat_eq) (on (λ d. d.descriptor) (pointwise nat_eq))) };

    ghost laws = { Prim.search (comparing, rules) };

    #[tactic(auto, using(crate::proofs::Same::same_told, crate::proofs::Same::same_from))]
    fn eq(&self, other: &GroupDef) -> bool
        ensures test { result ≡ (pointwise nat_eq self.now.name other.now.name
            && (nat_eq self.now.major other.now.major
            && pointwise nat_eq self.now.descriptor other.now.descriptor)) }
        ensures same { IsTrue result ↔ (self.now ≡ other.now) }
    {
        self.name() == other.name()
            && (self.major == other.major && self.descriptor() == other.descriptor())
    }
}

impl Eq for GroupDef {
    ghost use Rattle.std.specs.Cmp.Rules.{comparing};
    ghost use Rattle.std.proofs.Common.{rules};

    ghost laws = { Prim.search (comparing, rules) };
}

/// Why a definition was refused.
#[derive(Clone, Copy, Debug, PartialEq, Eq, Error)]
pub enum DefFault {
    /// The name is empty or over 255 bytes.
    #[error("the client's name is empty or over 255 bytes")]
    BadName,
    /// The descriptor is over 16,384 bytes.
    #[error("the descriptor is over 16384 bytes")]
    DescriptorTooLong,
}

impl GroupDef {
    ghost use Rattle.sync_ids.specs.Values.{IsGroupDef};

    /// A definition of these parts. `BadName` comes exactly where the name is empty or over 255
    /// bytes, and otherwise `DescriptorTooLong` exactly where the descriptor is over 16,384 bytes.
    /// It takes no memory.
    pub fn new(name: String, major: u32, descriptor: Vec<u8>) -> Result<GroupDef, DefFault>
        ensures made { IfOk result
            (λ d. d ≡ record {
              name = string_bytes name;
              major = major;
              descriptor =
                  descriptor.items;
            }) }
        ensures within { IfOk result (λ d. IsGroupDef d) }
        ensures bad_name { IsErrOf result DefFault.BadName ↔ ((length (string_bytes name) ≡ 0)
            ⊎ (MAX_NAME < length (string_bytes name))) }
        ensures long_descriptor { IsErrOf result DefFault.DescriptorTooLong
            ↔ ((1 ≤ length (string_bytes name)) × (length (string_bytes name) ≤ MAX_NAME)
            × (MAX_DESCRIPTOR < length descriptor.items)) }
    {
        if name.is_empty() || name.len() > MAX_NAME {
            return Err(DefFault::BadName);
        }
        if descriptor.len() > MAX_DESCRIPTOR {
            return Err(DefFault::DescriptorTooLong);
        }
        Ok(GroupDef {
            name,
            major,
            descriptor,
        })
    }

    /// The client's name.
    pub fn name(&self) -> &str
        ensures value { result.now ≡ self.now.name }
        ensures within { IsGroupDef self.now }
    {
        self.name.as_str()
    }

    /// The client's major version.
    pub fn major(&self) -> u32
        ensures { result ≡ self.now.major }
    {
        self.major
    }

    /// The descriptor.
    pub fn descriptor(&self) -> &[u8]
        ensures value { result.now ≡ self.now.descriptor }
        ensures within { IsGroupDef self.now }
    {
        self.descriptor.as_slice()
    }

    /// An equal definition in memory of its own. It fails only for want of memory.
    pub fn copy(&self, alloc: Global) -> Result<GroupDef, AllocError>
        ensures { IfOk result (λ copied. copied ≡ self.now) }
    {
        Ok(GroupDef {
            name: String::from_str(alloc, self.name.as_str())?,
            major: self.major,
            descriptor: self.descriptor.as_slice().to_vec(alloc)?,
        })
    }
}
