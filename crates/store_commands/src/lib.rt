//! The commands of a store: what each does to its files, what it prints, and what it comes to. Each
//! command over files is a load and then the call of the same name over a store that was loaded.
//!
//! - `init`, `entries`, `post`, `compacting`, `show`: the commands, a file for each kind.
//! - `load`: a store that is loaded, or what the command comes to without one.
//! - `plans`: the tests of a command over the loaded journal, and the entry that it plans.
//! - `commit`: a migration, settling, a batch, and settling again, with the answers of a store as outcomes.
//! - `laws`: that a line which is listed keeps its place.
//! - `listing`, `print`: what is printed of a store, and how it goes out.
#![tactic(auto)]

mod commit;
mod compacting;
mod entries;
mod init;
mod laws;
mod listing;
mod load;
mod plans;
mod post;
mod print;
mod show;

pub use commit::{Settling, migrate_and_settle, settle_loaded};
pub use compacting::{compact, compact_loaded};
pub use entries::{
    add_contact, add_contact_loaded, add_entry, add_group, add_group_loaded, set_level,
    set_level_loaded,
};
pub use init::make_store;
pub use laws::lines_keep_places;
pub use listing::{Listing, add_listing};
pub use load::load_store;
pub use plans::{PlannedPost, plan_message};
pub use post::{post_loaded, post_message};
pub use print::print_bytes;
pub use show::{list, list_loaded, write_body, write_body_loaded};
