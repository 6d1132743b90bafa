// Bytes of disks whose journal reaches the second area, or stands in it.
use std::alloc::Global;

/// Where the second area begins.
const SECOND: usize = 8_388_608;

/// The bytes of a disk whose second area is the active one and has these bytes; the first has zero bytes. Want
/// of memory is the one refusal.
pub fn second_area(alloc: Global, bytes: &[u8]) -> Option<Vec<u8>> {
    let mut all = Vec::new(alloc);
    all.extend_from_slice(b"HAILJRN2").ok()?;
    all.resize(SECOND, 0).ok()?;
    all.extend_from_slice(bytes).ok()?;
    Some(all)
}

/// The text of a store of six that was upgraded, up to the gate behind it: 8 bytes and records of 42 and 3.
const UPGRADED: &[u8] =
    b"HAILJRN1\x01\x01\x06\x03\x01\x01\x04\x08\0\0\0\x01\x02\x03\x04\x05\x06\x07\x08\x09\x0a\x0b\x0c\x0d\x0e\x0f\x10\x11\x12\x13\x14\x15\x16\x17\x18\x19\x1a\x1b\x1c\x1d\x1e\x1f\x01\x09\x02";

/// How many puts follow in a long text, each over the one before.
const PUTS: u64 = 93_206;

/// Adds the start of a put: 11 bytes and the name.
fn add_start(text: &mut Vec<u8>, number: u64, name: &[u8]) -> Option<()> {
    text.extend_from_slice(b"\x01\x02").ok()?;
    text.extend_from_slice(&number.to_le_bytes()).ok()?;
    text.push(u8::try_from(name.len()).ok()?).ok()?;
    text.extend_from_slice(name).ok()
}

/// Adds the end of a put of no byte at the profile 0: 15 bytes.
fn add_end(text: &mut Vec<u8>, number: u64) -> Option<()> {
    text.extend_from_slice(b"\x01\x08").ok()?;
    text.extend_from_slice(&number.to_le_bytes()).ok()?;
    text.extend_from_slice(&[0; 5]).ok()
}

/// Adds the puts of a name of 64 letters, of 90 bytes each.
fn add_puts(text: &mut Vec<u8>) -> Option<()> {
    for number in 1..PUTS + 1 {
        add_start(text, number, &[b'n'; 64])?;
        add_end(text, number)?;
    }
    Some(())
}

/// A text of the first area: of the store, the puts, and the start of one of a name of so many letters, at
/// most 64. With 3 letters it has as many bytes as there are before the second area. Want of memory is the one
/// refusal.
pub fn long_journal(alloc: Global, letters: usize) -> Option<Vec<u8>> {
    let name = [b'a'; 64];
    let mut text = Vec::new(alloc);
    text.extend_from_slice(UPGRADED).ok()?;
    add_puts(&mut text)?;
    add_start(&mut text, PUTS + 1, &name[..letters.min(64)])?;
    text.push(0).ok()?;
    Some(text)
}
