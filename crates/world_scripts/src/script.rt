//! A script, a line at a time.
use std::marker::Model;

/// The most bytes of a script.
pub const MAX_SCRIPT: usize = 1_048_576;

/// What is left of a script behind the lines that were read. Contracts see its course: what is to
/// be done, and the first line that is bad by itself.
#[derive(Debug, Drop)]
pub struct Script<'a> {
    // The bytes that are left, and the number of their first line.
    pub(crate) rest: &'a [u8],
    pub(crate) number: u32,
}

impl<'a> Model for Script<'a> {
    ghost use Rattle.std.specs.Prelude.{◌+◌, ◌≤◌, length};
    ghost use Rattle.world_scripts.specs.Courses.{ScriptCourse, course};
    ghost use Rattle.world_scripts.specs.Cuts.{lines};
    ghost use Rattle.world_scripts.specs.declared.script.TheConstants.{MAX_SCRIPT};

    ghost Value = { ScriptCourse };

    ghost view = { λ s. course s.number (lines s.rest.now) };

    ghost invariant = { λ s. s.number + length s.rest.now ≤ MAX_SCRIPT + 1 };
}

/// A script whose first line was read.
#[derive(Debug, Drop)]
pub struct Opened<'a> {
    /// How many devices the world has.
    pub devices: u8,
    /// What follows.
    pub script: Script<'a>,
}
