//! An audit of the two files of a store.
#![tactic(auto)]

mod alarms;
mod answer;
mod auditing;
mod bringing;
mod clocks;
mod cursors;
mod due;
mod early;
mod facts;
mod fault;
mod files;
mod frames;
mod groups;
mod hints;
mod levels;
mod messages;
mod names;
mod numbers;
mod playing;
mod reading;
mod ready;
mod report;
mod restoring;
mod rounds;
mod rows;
mod sessions;
mod settling;
mod sleepers;
mod sleeping;
mod taking;
mod time;
mod view;
mod wants;

pub use auditing::audit;
pub use fault::AuditFault;
pub use report::Report;
