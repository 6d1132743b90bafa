/// Where the text of the first area begins, in bytes from the start of the disk.
pub const FIRST_BASE: u64 = 8;

/// Where the text of the second area begins.
pub const SECOND_BASE: u64 = 1 << 23;

/// The offset of the switch byte, which names the active area.
pub const SWITCH: u64 = 7;

/// The value of the switch byte that names the second area; any other names the first.
pub const SECOND: u8 = b'2';
