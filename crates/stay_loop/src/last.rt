//! What a node that stays tells at its end.
use crate::log::Log;
use crate::talk::Talk;
use outside_real::Cause;
use std::alloc::AllocError;
use std::io::{Read, Write};
use std::rt::Files;
use std::time::Clock;
use sync_words::{Outcome, Status};

// How long those who came to the socket are given to take what waits for them, in milliseconds.
const LAST_MILLISECONDS: u64 = 2_000;

/// Takes the name of the socket away, tells all that the node ends, where it ends in order, and has
/// what waits go out: for those who came to the socket within two seconds.
pub fn tell_last<R, I, O>(rt: &R, mut talk: Talk<I, O>, came: &Outcome)
where
    R: Clock + Files,
    I: Read + Drop,
    O: Write + Drop,
{
    talk.take_name_away(rt);
    if matches!(came, Outcome::Done) {
        talk.tell_quit();
    }
    let until = talk.watch.now(rt).saturating_add(LAST_MILLISECONDS);
    for _ in 0..u64::MAX {
        let left = until.saturating_sub(talk.watch.now(rt));
        talk.forget_done(left == 0);
        if talk.desk.len() == 0 {
            break;
        }
        let most = u32::try_from(left).unwrap_or(u32::MAX);
        if let Err(AllocError) = talk.write_last(rt, most) {
            break;
        }
    }
}

/// Tells why the node ended on the error output, and says the status.
pub fn report_last<E: Write + Drop>(
    clock: &impl Clock,
    came: &Outcome,
    cause: Option<Cause>,
    log: &mut Log<E>,
) -> Status {
    log.tell(clock, came.text().as_str());
    if let (Outcome::DiskFault, Some(cause)) = (came, cause) {
        log.tell(clock, cause.line());
    }
    came.status()
}
