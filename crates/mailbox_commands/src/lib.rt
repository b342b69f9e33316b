//! The commands of mailbox files: `mailbox in` and `mailbox out`.
//!
//! - `taking`: the command that reads a file; `sending`: the one that writes a file.
//! - `tests`: what both test over the loaded journal; `laws`: what the reading of files comes to.
#![tactic(auto)]

pub mod laws;
mod sending;
mod taking;
mod tests;

pub use sending::{Sending, send_mail, send_mail_loaded};
pub use taking::{MAX_MAIL, take_mail, take_mail_bytes, take_mail_loaded, taken_line};
