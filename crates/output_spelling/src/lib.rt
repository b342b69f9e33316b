//! The bytes of what a session sends: of each output of a store, and of what every session begins
//! with. Whatever is to send them, a link or a mailbox, spells them here.
#![tactic(auto)]

mod spelling;

pub use spelling::{spell_nonce, spell_out, spell_versions};
