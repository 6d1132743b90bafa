//! Bodies of record_codec's public functions, for its must-fail edits to spoil.
ghost use Rattle.std.specs.Prelude.{◌≡◌, ◌++◌, ℕ, List, Some, None, IfSome, IfNone, length, take, if◌then◌else◌};
ghost use Rattle.record_defs.specs.Records.{Record as Entry, is_name, is_setup, record_size};
ghost use Rattle.record_defs.specs.Spellings.{spelling, Spells};
ghost use Rattle.record_codec.specs.Entries.{entry_of, with_master, IsInGrammar};

use record_codec::{Name, Record, Setup};

/// `Setup::check`.
pub fn check(setup: &Setup) -> bool
    ensures { (master : List ℕ) → result ≡ is_setup (with_master setup.now master) }
{
    setup.check()
}

/// `Name::new`.
pub fn new(bytes: &[u8]) -> Option<Name>
    ensures { result ≡ (if is_name bytes.now then Some bytes.now else None) }
{
    Name::new(bytes)
}

/// `Record::read`.
pub fn read(bytes: &[u8]) -> Option<(Record, usize)>
    ensures found { IfSome result (λ x. Spells (take x.1 bytes.now) (entry_of x.0)) }
    ensures none { IfNone result
        ((entry : Entry) (front rest : List ℕ) → Spells front entry → bytes.now ≡ front ++ rest → ⊥) }
{
    Record::read(bytes)
}

/// `Record::write`.
pub fn write(entry: &Record, out: &mut [u8; 80]) -> usize
    requires { IsInGrammar entry.now }
    ensures bytes { take result out.new ≡ spelling (entry_of entry.now) }
{
    entry.write(out)
}

/// `Record::size`.
pub fn size(entry: &Record) -> usize
    requires { IsInGrammar entry.now }
    ensures { result ≡ record_size (entry_of entry.now) }
{
    entry.size()
}
