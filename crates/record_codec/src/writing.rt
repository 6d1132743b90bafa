ghost use Rattle.std.specs.Prelude.{◌≡◌, ◌++◌, ◌∷◌, [], ◌+◌, ◌*◌, ◌≤◌, length, take};
ghost use Rattle.std.specs.Int.{w32, w64, to_le_bytes};
ghost use Rattle.std.specs.List.{flat_map};
ghost use Rattle.record_defs.specs.Records.{record_size};
ghost use Rattle.record_defs.specs.Spellings.{spelling, setup_bytes, name_bytes, counts_bytes};
ghost use Rattle.record_codec.specs.Entries.{entry_of, with_master, counted, IsInGrammar};

use crate::counts::Counts;
use crate::name::Name;
use crate::records::Record;
use crate::setup::Setup;

/// Writes a piece behind what was written.
fn put(out: &mut [u8], at: usize, piece: &[u8]) -> usize
    requires { at + length piece.now ≤ length out.old }
    ensures at { result ≡ at + length piece.now }
    ensures front { take result out.new ≡ take at out.old ++ piece.now }
{
    let end = at + piece.len();
    out[at..end].copy_from_slice(piece);
    end
}

fn put_numbers(out: &mut [u8], at: usize, ks: &[u32]) -> usize
    requires { at + 4 * length ks.now ≤ length out.old }
    ensures at { result ≡ at + 4 * length ks.now }
    ensures front { take result out.new ≡ take at out.old ++ flat_map (to_le_bytes w32) ks.now }
{
    let mut end = at;
    for k in ks {
        end = put(out, end, &k.to_le_bytes());
    }
    end
}

fn put_setup(out: &mut [u8], setup: &Setup, master: &[u8; 32]) -> usize
    requires { 41 ≤ length out.old }
    ensures at { result ≡ 41 }
    ensures front { take result out.new ≡ 1 ∷ setup_bytes (with_master setup.now master.now) }
{
    let numbers = [
        1,
        setup.n,
        setup.l,
        setup.b,
        setup.profile,
        setup.rounds,
        setup.picks,
    ];
    let at = put(out, 0, &numbers);
    let at = put(out, at, &setup.tolerance.to_le_bytes());
    put(out, at, master)
}

/// Writes a kind, and a number behind it.
fn put_number(out: &mut [u8], kind: u8, number: u64) -> usize
    requires { 9 ≤ length out.old }
    ensures at { result ≡ 9 }
    ensures front { take result out.new ≡ kind ∷ to_le_bytes w64 number }
{
    let at = put(out, 0, &[kind]);
    put(out, at, &number.to_le_bytes())
}

/// Writes a kind, and the number, length and profile of an object behind it.
fn put_object(out: &mut [u8], kind: u8, id: u64, size: u32, profile: u8) -> usize
    requires { 14 ≤ length out.old }
    ensures at { result ≡ 14 }
    ensures front { take result out.new ≡ kind ∷ to_le_bytes w64 id ++ to_le_bytes w32 size ++ profile ∷ [] }
{
    let at = put_number(out, kind, id);
    let at = put(out, at, &size.to_le_bytes());
    put(out, at, &[profile])
}

/// Writes a name behind its length.
fn put_name(out: &mut [u8], at: usize, name: &Name) -> usize
    requires { at + length (name_bytes name.now) ≤ length out.old }
    ensures at { result ≡ at + length (name_bytes name.now) }
    ensures front { take result out.new ≡ take at out.old ++ name_bytes name.now }
{
    let name = name.as_bytes();
    let at = put(out, at, &[name.len() as u8]);
    put(out, at, name)
}

/// Writes the counts of the providers behind their number.
fn put_counts(out: &mut [u8], at: usize, counts: &Counts) -> usize
    requires few { counts.now.n ≤ 16 }
    requires room { at + 1 + 4 * length (counted counts.now) ≤ length out.old }
    ensures at { result ≡ at + 1 + 4 * length (counted counts.now) }
    ensures front { take result out.new ≡ take at out.old ++ counts_bytes (counted counts.now) }
{
    let at = put(out, at, &[counts.n]);
    put_numbers(out, at, &counts.by[..counts.n as usize])
}

fn put_audit_done(out: &mut [u8], number: u64, undecided: u32, counts: &Counts) -> usize
    requires few { counts.now.n ≤ 16 }
    requires room { 14 + 4 * length (counted counts.now) ≤ length out.old }
    ensures at { result ≡ 14 + 4 * length (counted counts.now) }
    ensures front { take result out.new
        ≡ 6 ∷ to_le_bytes w64 number ++ to_le_bytes w32 undecided ++ counts_bytes (counted counts.now) }
{
    let at = put_number(out, 6, number);
    let at = put(out, at, &undecided.to_le_bytes());
    put_counts(out, at, counts)
}

impl Record {
    /// Writes the record's bytes to the front of `out`, and answers how many they are. What stands behind
    /// them is not promised. Condition: each field is within its limits.
    #[tactic(auto, unfolding(record_defs::specs::Spellings::spelling))]
    pub fn write(&self, out: &mut [u8; 80]) -> usize
        requires { IsInGrammar self.now }
        ensures size { result ≡ record_size (entry_of self.now) }
        ensures bytes { take result out.new ≡ spelling (entry_of self.now) }
    {
        match self {
            Record::Setup { setup, master } => put_setup(out, setup, master),
            Record::PutStart { id, name } => {
                let at = put_number(out, 2, *id);
                put_name(out, at, name)
            }
            Record::PutDone { id, length } => {
                let at = put_number(out, 3, *id);
                put(out, at, &length.to_le_bytes())
            }
            Record::Drop { name } => {
                let at = put(out, 0, &[4]);
                put_name(out, at, name)
            }
            Record::AuditStart { number } => put_number(out, 5, *number),
            Record::AuditDone {
                number,
                undecided,
                counts,
            } => put_audit_done(out, *number, *undecided, counts),
            Record::RepairDone { number } => put_number(out, 7, *number),
            Record::PutDoneIn {
                id,
                length,
                profile,
            } => put_object(out, 8, *id, *length, *profile),
            Record::Version => put(out, 0, &[9, 2]),
            Record::Resume { id, audit } => {
                let at = put_number(out, 10, *id);
                put(out, at, &audit.to_le_bytes())
            }
            Record::File {
                id,
                length,
                profile,
                name,
            } => {
                let at = put_object(out, 11, *id, *length, *profile);
                put_name(out, at, name)
            }
            Record::Due { number, counts } => {
                let at = put_number(out, 12, *number);
                put_counts(out, at, counts)
            }
        }
    }

    /// How many bytes the record takes, its kind included. Condition: each field is within its limits.
    pub fn size(&self) -> usize
        requires { IsInGrammar self.now }
        ensures { result ≡ record_size (entry_of self.now) }
    {
        match self {
            Record::Setup { .. } => 41,
            Record::PutStart { name, .. } => 10 + name.as_bytes().len(),
            Record::PutDone { .. } => 13,
            Record::Drop { name } => 2 + name.as_bytes().len(),
            Record::AuditStart { .. } => 9,
            Record::AuditDone { counts, .. } => 14 + 4 * counts.n as usize,
            Record::RepairDone { .. } => 9,
            Record::PutDoneIn { .. } => 14,
            Record::Version => 2,
            Record::Resume { .. } => 17,
            Record::File { name, .. } => 15 + name.as_bytes().len(),
            Record::Due { counts, .. } => 10 + 4 * counts.n as usize,
        }
    }
}
