// The stores of which a forgery is shown.
ghost use Rattle.std.specs.Prelude.{◌≡◌};
ghost use Rattle.record_defs.specs.Journal.{text};
ghost use Rattle.forged_stores.specs.Stored.{setup_numbers, stored_bytes, records_of};

/// A store after an `init` and a `put a`. The bytes of the master key are 0 to 31.
#[derive(Clone, Copy, Debug, PartialEq, Eq)]
pub enum Stored {
    /// Four providers, one of them primary; the file has 32 zero bytes.
    FourZeros,
    /// Six providers, three of them primary; the file has 100 letters t.
    SixLetters,
}

impl Stored {
    /// The whole journal.
    #[tactic(auto, unfolding(record_defs::specs::Spellings::spelling))]
    pub fn journal(self) -> &'static [u8]
        ensures { result.now ≡ text (records_of self) }
    {
        match self {
            Stored::FourZeros =>
                b"HAILJRN1\x01\x01\x04\x01\x01\x00\x01\x01\x00\x00\x00\x01\x02\x03\x04\x05\x06\x07\x08\x09\x0a\x0b\x0c\x0d\x0e\x0f\x10\x11\x12\x13\x14\x15\x16\x17\x18\x19\x1a\x1b\x1c\x1d\x1e\x1f\x01\x02\x01\0\0\0\0\0\0\0\x01a\x01\x03\x01\0\0\0\0\0\0\0\x20\0\0\0\0",
            Stored::SixLetters =>
                b"HAILJRN1\x01\x01\x06\x03\x01\x01\x04\x08\x00\x00\x00\x01\x02\x03\x04\x05\x06\x07\x08\x09\x0a\x0b\x0c\x0d\x0e\x0f\x10\x11\x12\x13\x14\x15\x16\x17\x18\x19\x1a\x1b\x1c\x1d\x1e\x1f\x01\x02\x01\0\0\0\0\0\0\0\x01a\x01\x03\x01\0\0\0\0\0\0\0\x64\0\0\0\0",
        }
    }

    /// The bytes of the file.
    pub fn file(self) -> &'static [u8]
        ensures { result.now ≡ stored_bytes self }
    {
        match self {
            Stored::FourZeros => &[0; 32],
            Stored::SixLetters => &[b't'; 100],
        }
    }

    /// How many providers the store has.
    pub fn providers(self) -> usize
        ensures { result ≡ (setup_numbers self).n }
    {
        match self {
            Stored::FourZeros => 4,
            Stored::SixLetters => 6,
        }
    }
}
