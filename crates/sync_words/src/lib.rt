//! What single words stand for, the texts that commands print, and what a command comes to.
#![tactic(auto)]

mod digits;
mod entry_lines;
mod error_lines;
mod held_lines;
mod link_words;
mod links;
mod outcome;
mod reading;
mod spec;
mod status;
mod stream_lines;
mod version;
mod word;

pub use digits::add_id;
pub use entry_lines::{
    compacted_line, contact_line, group_line, level_line, posted_line, ready_line,
};
pub use error_lines::{
    ErrorText, MAX_ERROR, bad_record_line, damaged_line, inside_line, link_line, plain_line,
    refused_line, script_line, usage_line,
};
pub use held_lines::{
    contacts_line, device_line, inbox_line, known_group_line, sessions_line, state_line,
};
pub use link_words::{LinkList, LinkWords};
pub use links::LinkEnds;
pub use outcome::Outcome;
pub use reading::{id, level, mode, number, positive};
pub use spec::{is_dialled, is_spec, is_std};
pub use status::Status;
pub use stream_lines::{record_line, skipped_line, try_line};
pub use version::{VERSION, version_line};
pub use word::Word;
