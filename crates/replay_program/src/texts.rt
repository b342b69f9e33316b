//! The texts of help of `bsp_replay`, made from docs/bsp_replay.1 by oracle/help_texts.py.

/// What commands there are.
pub const OVERVIEW: &str =
    "bsp_replay - play a script of several nodes that sync, crash and lose records

  bsp_replay <SCRIPT
  bsp_replay gen SEED COUNT
  bsp_replay help [gen]
  bsp_replay --version

`bsp_replay help COMMAND` tells of a command; the manual page bsp_replay(1) has the rest.
";

/// The version.
pub const VERSION: &str = "bsp_replay 0.4.0
";

/// What `gen` does.
pub const GEN: &str = "bsp_replay gen SEED COUNT

Plays a world of two nodes with so many posts, drawn from a seed, in the place
of a script.
";
