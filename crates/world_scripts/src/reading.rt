//! Reading a script.
ghost use Rattle.std.specs.Prelude.{◌≡◌, ◌+◌, ◌≤◌, IfOk, length};
ghost use Rattle.world_scripts.specs.Courses.{said};
ghost use Rattle.world_scripts.specs.Scripts.{ReadsNextAction, IsScriptOpened, ReadsNextLine};

use crate::cut::cut_line;
use crate::fault::{LineFault, ScriptFault};
use crate::line::read_line;
use crate::script::{MAX_SCRIPT, Opened, Script};
use crate::step::{Action, Line, MAX_DEVICES, MIN_DEVICES};
use std::alloc::Global;

/// Reads the first line that is not empty, which says how many devices there are.
///
/// # Errors
/// `BadLine` exactly where it is no such line, with its number, or 1 where each line is empty;
/// `Memory` for want of memory.
pub fn open_script(alloc: Global, bytes: &[u8]) -> Result<Opened<'_>, ScriptFault>
    requires { length bytes.now ≤ MAX_SCRIPT }
    ensures opened { IsScriptOpened (said bytes.now) result }
    ensures fewest { IfOk result (λ o. MIN_DEVICES ≤ o.devices) }
    ensures most { IfOk result (λ o. o.devices ≤ MAX_DEVICES) }
{
    let Some((number, line, rest)) = next_line(1, bytes) else {
        return Err(ScriptFault::BadLine(1));
    };
    match read_line(alloc, line) {
        Ok(Line::Devices(devices)) => {
            let script = Script {
                rest,
                number: number + 1,
            };
            Ok(Opened { devices, script })
        }
        Ok(Line::Does(_)) | Err(LineFault::NoForm) => Err(ScriptFault::BadLine(number)),
        Err(LineFault::Memory) => Err(ScriptFault::Memory),
    }
}

impl<'a> Script<'a> {
    /// The next action, with the number of its line; `None` at the end.
    ///
    /// # Errors
    /// `BadLine` exactly where the next line that is not empty is bad by itself; each later call
    /// then answers the same. `Memory` for want of memory; the script is then as before.
    pub fn next_action(&mut self, alloc: Global) -> Result<Option<(u32, Action)>, ScriptFault>
        ensures { ReadsNextAction self.old result self.new }
    {
        let Some((number, line, rest)) = next_line(self.number, self.rest) else {
            return Ok(None);
        };
        match read_line(alloc, line) {
            Ok(Line::Does(action)) => {
                *self = Script {
                    rest,
                    number: number + 1,
                };
                Ok(Some((number, action)))
            }
            Ok(Line::Devices(_)) | Err(LineFault::NoForm) => Err(ScriptFault::BadLine(number)),
            Err(LineFault::Memory) => Err(ScriptFault::Memory),
        }
    }
}

// The next line that is not empty, with its number, and what is behind it. The first line of these
// bytes has the number that is given.
fn next_line(first: u32, bytes: &[u8]) -> Option<(u32, &[u8], &[u8])>
    requires { first + length bytes.now ≤ MAX_SCRIPT + 1 }
    ensures { ReadsNextLine first bytes.now result }
{
    let mut number = first;
    let mut left = bytes;
    while let Some((line, rest)) = cut_line(left) {
        if !line.is_empty() {
            return Some((number, line, rest));
        }
        left = rest;
        number += 1;
    }
    None
}
