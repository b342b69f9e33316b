//! A session as two pure steps over whatever keeps the journal: what a record that was heard is
//! taken as, and what output is due. Both are exactly the definitions of `sync_rules`. With them,
//! what a link is judged by: its versions and its nonce.
#![tactic(auto)]

mod first_ids;
mod links;
mod outputs;
mod taking;

pub use links::{keep, versions_ok};
pub use outputs::due;
pub use taking::{take, take_known};
