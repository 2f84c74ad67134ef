//! How a call ended, as numbers. `include/tfpg.h` has the same names, with `TFPG_` before them.

/// The call is done.
pub const DONE: u32 = 0;

/// The report is not accepted. The answer has its line and its cause.
pub const NOT_ACCEPTED: u32 = 1;

/// A number of the terms is out of its range.
pub const OUT_OF_RANGE: u32 = 2;

/// The graph's text has a fault. The answer has its line and its cause.
pub const BAD_GRAPH: u32 = 3;

/// There are too many hypotheses. The answer has their number.
pub const TOO_MANY_HYPOTHESES: u32 = 4;

/// A text is too long.
pub const TOO_MUCH_INPUT: u32 = 7;

/// Memory ran out.
pub const NO_MEMORY: u32 = 8;

/// The text does not fit the room. The answer has the number of its bytes. Nothing is written.
pub const ROOM_TOO_SMALL: u32 = 9;

/// The handle is closed, or its session ended when memory ran out.
pub const ENDED: u32 = 10;

/// There is no such kind, name, index or rank. Nothing is written.
pub const NO_SUCH: u32 = 11;

/// A line of the map is faulty. The answer has the number of the first one.
pub const BAD_MAP: u32 = 12;

/// The graph has no room for a probe. The answer has the cause.
pub const FULL_GRAPH: u32 = 13;
