//! Why words were not read.
use std::alloc::{AllocError, AllocFailed};
use sync_words::Outcome;

/// Why the words of a command line were not read.
#[derive(Clone, Copy, Debug, PartialEq, Eq)]
pub enum WordsFault {
    /// No memory was found.
    Memory,
    /// The place of the first word that is wrong or too many, or the number of words where one is
    /// missing.
    Usage(usize),
}

impl From<AllocError> for WordsFault {
    ghost use Rattle.std.specs.Prelude.{◌≡◌};
    ghost use Rattle.commands.specs.declared.fault.WordsFault.TheVariants as fault;

    ghost from_gives = { λ _ e. e ≡ fault.Memory };

    fn from(_: AllocError) -> WordsFault {
        WordsFault::Memory
    }
}

impl<T: Drop> From<AllocFailed<T>> for WordsFault {
    ghost use Rattle.std.specs.Prelude.{◌≡◌};
    ghost use Rattle.commands.specs.declared.fault.WordsFault.TheVariants as fault;

    ghost from_gives = { λ _ e. e ≡ fault.Memory };

    fn from(_: AllocFailed<T>) -> WordsFault {
        WordsFault::Memory
    }
}

impl From<WordsFault> for Outcome {
    ghost use Rattle.std.specs.Prelude.{◌≡◌};
    ghost use Rattle.commands.specs.Reading.{words_came};

    ghost from_gives = { λ fault came. came ≡ words_came fault };

    fn from(fault: WordsFault) -> Outcome {
        match fault {
            WordsFault::Usage(place) => Outcome::Usage(place),
            WordsFault::Memory => Outcome::Memory,
        }
    }
}
