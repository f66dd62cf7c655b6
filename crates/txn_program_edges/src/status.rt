//! The statuses of the program.

/// Every step has its entry.
pub const EVERY_STEP: u8 = 0;

/// The session ended, or the layer below refused.
pub const STOPPED: u8 = 1;

/// The words are outside the table of words.
pub const USAGE: u8 = 2;

/// A line of the input is outside the line table.
pub const NOT_A_STEP: u8 = 3;

/// The input failed.
pub const READ_FAULT: u8 = 4;

/// The output failed.
pub const WRITE_FAULT: u8 = 5;

/// Out of memory; nothing was written.
pub const NO_MEMORY: u8 = 6;

/// The input has more octets than the limit.
pub const TOO_LONG: u8 = 7;

/// Out of memory in the layer below.
pub const NO_MEMORY_BELOW: u8 = 8;
