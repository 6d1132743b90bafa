// Deeds that stand in many rows.
use command_fixtures::{Deed, KEY};

/// Four providers are set up, of which the first has a file's own bytes, in blocks of six symbols.
pub const FOUR: Deed = Deed::Done("init 4 1 1 0 1 1 0", KEY, b"ready\n");

/// Three bytes are stored over them.
pub const THREE: Deed = Deed::Done("put a", b"abc", b"stored a 3\n");

/// Six providers are set up, of which three have a file's own bytes and three have parity, in blocks of 16
/// symbols.
pub const SIX: Deed = Deed::Done("init 6 3 1 1 4 8 0", KEY, b"ready\n");

/// The journal that the set-up of six leaves, and the record of the setup and the key in it.
pub const SIX_JOURNAL: &[u8] =
    b"HAILJRN1\x01\x01\x06\x03\x01\x01\x04\x08\0\0\0\x01\x02\x03\x04\x05\x06\x07\x08\x09\x0a\x0b\x0c\x0d\x0e\x0f\x10\x11\x12\x13\x14\x15\x16\x17\x18\x19\x1a\x1b\x1c\x1d\x1e\x1f\0";

/// A text of 100 bytes.
pub const NOTES: &[u8] = &[b'n'; 100];

/// It is stored over six providers, as the object 1.
pub const STORED: Deed = Deed::Done("put notes.txt", NOTES, b"stored notes.txt 100\n");

/// What the journal then has: behind the setup and the key, the records of the put.
pub const NOTES_JOURNAL: &[u8] =
    b"HAILJRN1\x01\x01\x06\x03\x01\x01\x04\x08\0\0\0\x01\x02\x03\x04\x05\x06\x07\x08\x09\x0a\x0b\x0c\x0d\x0e\x0f\x10\x11\x12\x13\x14\x15\x16\x17\x18\x19\x1a\x1b\x1c\x1d\x1e\x1f\x01\x02\x01\0\0\0\0\0\0\0\x09notes.txt\x01\x03\x01\0\0\0\0\0\0\0\x64\0\0\0\0";

/// The journal's second version is brought into effect.
pub const UPGRADED: Deed = Deed::Done("upgrade", b"", b"upgraded\n");
