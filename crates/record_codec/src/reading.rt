ghost use Rattle.std.specs.Prelude.{◌≡◌, ◌++◌, ◌∷◌, ◌≤◌, ◌-◌, ℕ, [], List, length, take, replicate};
ghost use Rattle.std.specs.Prelude.{IfSome, IfNone, IsTrue};
ghost use Rattle.std.specs.Option.{option_map};
ghost use Rattle.std.specs.Int.{w32, w64};
ghost use Rattle.record_defs.specs.Records.{Record as Entry};
ghost use Rattle.record_defs.specs.Spellings.{Spells};
ghost use Rattle.record_codec.specs.Entries.{entry_of, with_master, counted, IsPadded, HasPadding, IsInGrammar};
ghost use Rattle.record_codec.specs.Reading.{number_at, name_at, keyed_at, setup_at, put_start_at, put_done_at, drop_at, audit_start_at, numbers_at, counts_at, audit_done_at, repair_done_at, profile_at, object_at, put_done_in_at, version_at, resume_at, in_effect_at, repair_due_at, record_at};

use crate::counts::Counts;
use crate::name::Name;
use crate::records::Record;
use crate::setup::Setup;
use code_defs::PROFILES;
use record_defs::LARGEST_FILE;

fn u32_at(bytes: &[u8]) -> Option<(u32, &[u8])>
    ensures { option_map (λ x. (x.0, x.1.now)) result ≡ number_at w32 bytes.now }
{
    if bytes.len() < 4 {
        return None;
    }
    let (front, rest) = bytes.split_at(4);
    let number = u32::from_le_bytes([front[0], front[1], front[2], front[3]]);
    Some((number, rest))
}

fn u64_at(bytes: &[u8]) -> Option<(u64, &[u8])>
    ensures { option_map (λ x. (x.0, x.1.now)) result ≡ number_at w64 bytes.now }
{
    if bytes.len() < 8 {
        return None;
    }
    let (front, rest) = bytes.split_at(8);
    let number = u64::from_le_bytes([
        front[0], front[1], front[2], front[3], front[4], front[5], front[6], front[7],
    ]);
    Some((number, rest))
}

#[tactic(auto, unfolding(crate::specs::Reading::name_at))]
fn name_of(bytes: &[u8]) -> Option<(Name, &[u8])>
    ensures { option_map (λ x. (x.0, x.1.now)) result ≡ name_at bytes.now }
{
    let (len, rest) = bytes.split_first()?;
    let len = *len as usize;
    if rest.len() < len {
        return None;
    }
    let (text, rest) = rest.split_at(len);
    let name = Name::new(text)?;
    Some((name, rest))
}

#[tactic(auto, unfolding(crate::specs::Reading::keyed_at))]
fn keyed_of(setup: Setup, bytes: &[u8]) -> Option<(Record, &[u8])>
    ensures value { option_map (λ x. (entry_of x.0, x.1.now)) result
        ≡ keyed_at (with_master setup []) bytes.now }
    ensures padded { IfSome result (λ x. HasPadding x.0) }
{
    if !setup.check() {
        return None;
    }
    if bytes.len() < 32 {
        return None;
    }
    let (key, rest) = bytes.split_at(32);
    let mut master = [0u8; 32];
    master.copy_from_slice(key);
    Some((Record::Setup { setup, master }, rest))
}

#[tactic(auto, unfolding(crate::specs::Reading::setup_at))]
fn setup_of(bytes: &[u8]) -> Option<(Record, &[u8])>
    ensures value { option_map (λ x. (entry_of x.0, x.1.now)) result ≡ setup_at bytes.now }
    ensures padded { IfSome result (λ x. HasPadding x.0) }
{
    match bytes {
        [n, l, b, profile, rounds, picks, low, high, rest @ ..] => {
            let setup = Setup {
                n: *n,
                l: *l,
                b: *b,
                profile: *profile,
                rounds: *rounds,
                picks: *picks,
                tolerance: u16::from_le_bytes([*low, *high]),
            };
            keyed_of(setup, rest)
        }
        _ => None,
    }
}

#[tactic(auto, unfolding(crate::specs::Reading::put_start_at))]
fn put_start_of(bytes: &[u8]) -> Option<(Record, &[u8])>
    ensures value { option_map (λ x. (entry_of x.0, x.1.now)) result ≡ put_start_at bytes.now }
    ensures padded { IfSome result (λ x. HasPadding x.0) }
{
    let (id, rest) = u64_at(bytes)?;
    match name_of(rest) {
        Some((name, rest)) => Some((Record::PutStart { id, name }, rest)),
        None => None,
    }
}

#[tactic(auto, unfolding(crate::specs::Reading::put_done_at))]
fn put_done_of(bytes: &[u8]) -> Option<(Record, &[u8])>
    ensures value { option_map (λ x. (entry_of x.0, x.1.now)) result ≡ put_done_at bytes.now }
    ensures padded { IfSome result (λ x. HasPadding x.0) }
{
    let (id, rest) = u64_at(bytes)?;
    let (length, rest) = u32_at(rest)?;
    if length <= LARGEST_FILE {
        Some((Record::PutDone { id, length }, rest))
    } else {
        None
    }
}

#[tactic(auto, unfolding(crate::specs::Reading::drop_at))]
fn drop_of(bytes: &[u8]) -> Option<(Record, &[u8])>
    ensures value { option_map (λ x. (entry_of x.0, x.1.now)) result ≡ drop_at bytes.now }
    ensures padded { IfSome result (λ x. HasPadding x.0) }
{
    match name_of(bytes) {
        Some((name, rest)) => Some((Record::Drop { name }, rest)),
        None => None,
    }
}

#[tactic(auto, unfolding(crate::specs::Reading::audit_start_at))]
fn audit_start_of(bytes: &[u8]) -> Option<(Record, &[u8])>
    ensures value { option_map (λ x. (entry_of x.0, x.1.now)) result ≡ audit_start_at bytes.now }
    ensures padded { IfSome result (λ x. HasPadding x.0) }
{
    let (number, rest) = u64_at(bytes)?;
    Some((Record::AuditStart { number }, rest))
}

fn numbers_of<'a>(out: &mut [u32], bytes: &'a [u8]) -> Option<&'a [u8]>
    ensures { option_map (λ rest. (out.new, rest.now)) result ≡ numbers_at (length out.old) bytes.now }
{
    let mut rest = bytes;
    for i in 0..out.len() {
        let (number, after) = u32_at(rest)?;
        out[i] = number;
        rest = after;
    }
    Some(rest)
}

#[tactic(auto, unfolding(crate::specs::Reading::counts_at))]
fn counts_of(bytes: &[u8]) -> Option<(Counts, &[u8])>
    ensures value { option_map (λ x. (counted x.0, x.1.now)) result ≡ counts_at bytes.now }
    ensures padded { IfSome result (λ x. IsPadded x.0) }
{
    let (n, rest) = bytes.split_first()?;
    let n = *n;
    if n < 4 {
        return None;
    }
    if n > 16 {
        return None;
    }
    let mut by = [0u32; 16];
    let rest = numbers_of(&mut by[..n as usize], rest)?;
    Some((Counts { n, by }, rest))
}

#[tactic(auto, unfolding(crate::specs::Reading::audit_done_at))]
fn audit_done_of(bytes: &[u8]) -> Option<(Record, &[u8])>
    ensures value { option_map (λ x. (entry_of x.0, x.1.now)) result ≡ audit_done_at bytes.now }
    ensures padded { IfSome result (λ x. HasPadding x.0) }
{
    let (number, rest) = u64_at(bytes)?;
    let (undecided, rest) = u32_at(rest)?;
    match counts_of(rest) {
        Some((counts, rest)) => Some((
            Record::AuditDone {
                number,
                undecided,
                counts,
            },
            rest,
        )),
        None => None,
    }
}

#[tactic(auto, unfolding(crate::specs::Reading::repair_done_at))]
fn repair_done_of(bytes: &[u8]) -> Option<(Record, &[u8])>
    ensures value { option_map (λ x. (entry_of x.0, x.1.now)) result ≡ repair_done_at bytes.now }
    ensures padded { IfSome result (λ x. HasPadding x.0) }
{
    let (number, rest) = u64_at(bytes)?;
    Some((Record::RepairDone { number }, rest))
}

#[tactic(auto, unfolding(crate::specs::Reading::profile_at))]
fn profile_of(bytes: &[u8]) -> Option<(u8, &[u8])>
    ensures { option_map (λ x. (x.0, x.1.now)) result ≡ profile_at bytes.now }
{
    let (profile, rest) = bytes.split_first()?;
    if *profile < PROFILES {
        Some((*profile, rest))
    } else {
        None
    }
}

#[tactic(auto, unfolding(crate::specs::Reading::object_at))]
fn object_of(bytes: &[u8]) -> Option<((u64, u32, u8), &[u8])>
    ensures { option_map (λ x. (x.0, x.1.now)) result ≡ object_at bytes.now }
{
    let (id, rest) = u64_at(bytes)?;
    let (length, rest) = u32_at(rest)?;
    let (profile, rest) = profile_of(rest)?;
    if length > LARGEST_FILE {
        None
    } else {
        Some(((id, length, profile), rest))
    }
}

#[tactic(auto, unfolding(crate::specs::Reading::put_done_in_at))]
fn put_done_in_of(bytes: &[u8]) -> Option<(Record, &[u8])>
    ensures value { option_map (λ x. (entry_of x.0, x.1.now)) result ≡ put_done_in_at bytes.now }
    ensures padded { IfSome result (λ x. HasPadding x.0) }
{
    let ((id, length, profile), rest) = object_of(bytes)?;
    Some((
        Record::PutDoneIn {
            id,
            length,
            profile,
        },
        rest,
    ))
}

#[tactic(auto, unfolding(crate::specs::Reading::version_at))]
fn version_of(bytes: &[u8]) -> Option<(Record, &[u8])>
    ensures value { option_map (λ x. (entry_of x.0, x.1.now)) result ≡ version_at bytes.now }
    ensures padded { IfSome result (λ x. HasPadding x.0) }
{
    match bytes {
        [2, rest @ ..] => Some((Record::Version, rest)),
        _ => None,
    }
}

#[tactic(auto, unfolding(crate::specs::Reading::resume_at))]
fn resume_of(bytes: &[u8]) -> Option<(Record, &[u8])>
    ensures value { option_map (λ x. (entry_of x.0, x.1.now)) result ≡ resume_at bytes.now }
    ensures padded { IfSome result (λ x. HasPadding x.0) }
{
    let (id, rest) = u64_at(bytes)?;
    match u64_at(rest) {
        Some((audit, rest)) => Some((Record::Resume { id, audit }, rest)),
        None => None,
    }
}

#[tactic(auto, unfolding(crate::specs::Reading::in_effect_at))]
fn file_of(bytes: &[u8]) -> Option<(Record, &[u8])>
    ensures value { option_map (λ x. (entry_of x.0, x.1.now)) result ≡ in_effect_at bytes.now }
    ensures padded { IfSome result (λ x. HasPadding x.0) }
{
    let ((id, length, profile), rest) = object_of(bytes)?;
    match name_of(rest) {
        Some((name, rest)) => Some((
            Record::File {
                id,
                length,
                profile,
                name,
            },
            rest,
        )),
        None => None,
    }
}

#[tactic(auto, unfolding(crate::specs::Reading::repair_due_at))]
fn due_of(bytes: &[u8]) -> Option<(Record, &[u8])>
    ensures value { option_map (λ x. (entry_of x.0, x.1.now)) result ≡ repair_due_at bytes.now }
    ensures padded { IfSome result (λ x. HasPadding x.0) }
{
    let (number, rest) = u64_at(bytes)?;
    match counts_of(rest) {
        Some((counts, rest)) => Some((Record::Due { number, counts }, rest)),
        None => None,
    }
}

/// Reads a record behind its kind.
#[tactic(auto, unfolding(crate::specs::Reading::record_at))]
fn kind_of(kind: u8, bytes: &[u8]) -> Option<(Record, &[u8])>
    ensures value { option_map (λ x. (entry_of x.0, x.1.now)) result ≡ record_at (kind ∷ bytes.now) }
    ensures padded { IfSome result (λ x. HasPadding x.0) }
{
    match kind {
        1 => setup_of(bytes),
        2 => put_start_of(bytes),
        3 => put_done_of(bytes),
        4 => drop_of(bytes),
        5 => audit_start_of(bytes),
        6 => audit_done_of(bytes),
        7 => repair_done_of(bytes),
        8 => put_done_in_of(bytes),
        9 => version_of(bytes),
        10 => resume_of(bytes),
        11 => file_of(bytes),
        12 => due_of(bytes),
        _ => None,
    }
}

/// Reads a record.
#[tactic(auto, unfolding(crate::specs::Reading::record_at))]
fn record_of(bytes: &[u8]) -> Option<(Record, &[u8])>
    ensures value { option_map (λ x. (entry_of x.0, x.1.now)) result ≡ record_at bytes.now }
    ensures padded { IfSome result (λ x. HasPadding x.0) }
{
    match bytes {
        [kind, rest @ ..] => kind_of(*kind, rest),
        _ => None,
    }
}

impl Record {
    /// The record at the front of the bytes, and how many bytes it takes; None exactly where none stands
    /// there. Bytes may be any, and what stands behind the record does not count.
    pub fn read(bytes: &[u8]) -> Option<(Record, usize)>
        ensures size { IfSome result (λ x. x.1 ≤ length bytes.now) }
        ensures found { IfSome result (λ x. Spells (take x.1 bytes.now) (entry_of x.0)) }
        ensures in_grammar { IfSome result (λ x. IsInGrammar x.0) }
        ensures none { IfNone result
            ((entry : Entry) (front rest : List ℕ) → Spells front entry → bytes.now ≡ front ++ rest → ⊥) }
    {
        match record_of(bytes) {
            Some((entry, rest)) => Some((entry, bytes.len() - rest.len())),
            None => None,
        }
    }
}
