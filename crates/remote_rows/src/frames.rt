// Requests about blocks of one symbol, and what answers them.

/// A store of the block of this symbol.
pub fn store(object: u64, stripe: u32, symbol: u64) -> [u8; 30] {
    let mut frame = [0; 30];
    frame[0] = 1;
    frame[1..9].copy_from_slice(&object.to_le_bytes());
    frame[9..13].copy_from_slice(&stripe.to_le_bytes());
    frame[13] = 1;
    frame[14..22].copy_from_slice(&symbol.to_le_bytes());
    frame
}

/// A fetch of a block of one symbol.
pub fn fetch(object: u64, stripe: u32) -> [u8; 14] {
    let mut frame = [0; 14];
    frame[0] = 2;
    frame[1..9].copy_from_slice(&object.to_le_bytes());
    frame[9..13].copy_from_slice(&stripe.to_le_bytes());
    frame[13] = 1;
    frame
}

/// A question about an object: one pick of its one row.
pub fn question(object: u64) -> [u8; 51] {
    let mut frame = [7; 51];
    frame[0] = 3;
    frame[1..9].copy_from_slice(&object.to_le_bytes());
    frame[41..].copy_from_slice(&[1, 0, 0, 0, 0, 0, 0, 0, 1, 1]);
    frame
}

/// A removal.
pub fn remove(object: u64) -> [u8; 9] {
    let mut frame = [0; 9];
    frame[0] = 4;
    frame[1..].copy_from_slice(&object.to_le_bytes());
    frame
}

/// What gives the block of this symbol.
pub fn found(symbol: u64) -> [u8; 17] {
    let mut answer = [0; 17];
    answer[0] = 1;
    answer[1..9].copy_from_slice(&symbol.to_le_bytes());
    answer
}
