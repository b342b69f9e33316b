//! What a node that stays tells on its error output.
use outside::write_text;
use outside_real::{ERROR_OUTPUT, StdSink, takes_at_once};
use std::alloc::Global;
use std::io::Write;
use std::time::Clock;

/// The error output. A line that it does not take at once is dropped whole.
#[derive(Drop)]
pub struct Log<E: Write + Drop> {
    pub alloc: Global,
    pub err: StdSink<E>,
}

impl<E: Write + Drop> Log<E> {
    /// Tells a line.
    pub fn tell(&mut self, clock: &impl Clock, line: &str) {
        if takes_at_once(self.alloc, clock, ERROR_OUTPUT) {
            let _ = write_text(&mut self.err, line);
        }
    }
}
