/// All was written.
pub const WRITTEN: u8 = 0;

/// No polynomial is accepted for the row.
pub const LOST_ROW: u8 = 4;

/// A write to the sink failed.
pub const SINK_FAULT: u8 = 15;

/// There was no memory.
pub const NO_MEMORY: u8 = 70;
