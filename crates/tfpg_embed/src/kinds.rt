//! The kinds of names and of events, as numbers. `include/tfpg.h` has the same names, with `TFPG_` before them.

/// Names of nodes. The index of one is its number.
pub const NODE_NAME: u32 = 1;

/// Names of failure modes. The index of one is its position.
pub const FAILURE_NAME: u32 = 2;

/// Names of modes.
pub const MODE_NAME: u32 = 3;

/// The kind of an event: the monitor of a node raised its alarm.
pub const ALARM: u32 = 1;

/// The monitor of a node was asked and is silent.
pub const SILENT: u32 = 2;

/// All monitors were asked.
pub const SWEEP: u32 = 3;

/// Time went on.
pub const TICK: u32 = 4;

/// The mode changed.
pub const MODE: u32 = 5;
