//! The records of the Bramble Synchronisation Protocol as bytes: the one spelling of each, and what
//! stands at the front of any bytes (BSP, "Records").
#![tactic(auto)]

mod front;
mod laws;
mod reading;
mod stream;
mod writing;

pub use front::{Front, HEADER_LEN, Kind, MAX_PAYLOAD, MAX_RECORD, Reason, front_of};
pub use laws::{
    decisions_stay, endings_are_of_rests, fronts_have_fronts, items_are_longest,
    none_begins_another, records_join, rests_give_nothing, skipped_read_back,
    spelled_records_are_streams, spelled_records_read_back, spellings_are_exact,
    spellings_read_back, streams_are_made_of_items, streams_go_on,
};
pub use reading::{Found, read_one};
pub use stream::{Ending, Item, ending_of};
pub use writing::{
    encode, encode_ack, encode_message, encode_offer, encode_priority, encode_request,
    encode_versions,
};
