//! The outside of a node as traits: a disk, a host with links, a source and a sink; and objects in
//! memory that meet them.
#![tactic(auto)]

mod answer;
mod call;
mod clock;
mod counts;
mod disk;
mod due;
mod failed;
mod failing;
mod host;
mod image;
mod input;
mod limits;
mod mem_disk;
mod mem_host;
mod mem_sink;
mod mem_source;
mod output;
mod pick;
mod random;
mod replay;
mod reply;
mod script;
mod stream;
mod untold;

pub use answer::Answer;
pub use call::Call;
pub use counts::raise_at;
pub use disk::{Disk, Place};
pub use failed::Failed;
pub use host::{Heard, Host};
pub use input::{InputFault, read_input};
pub use limits::{LINKS, MAX_FRAME, MAX_JOURNAL};
pub use mem_disk::MemDisk;
pub use mem_host::MemHost;
pub use mem_sink::MemSink;
pub use mem_source::MemSource;
pub use output::{write_all, write_text};
pub use pick::Pick;
pub use random::MemRandom;
pub use reply::Reply;
pub use stream::{Sink, Source};
pub use untold::Untold;
