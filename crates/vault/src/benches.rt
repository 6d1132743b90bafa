ghost use Rattle.std.specs.Prelude.{◌≡◌, ◌≤◌, ◌∷◌, ℕ, true, position, IfOk, OnOk, OnErr, IsErrOf, IsErr};
ghost use Rattle.std.specs.List.{list_any};
ghost use Rattle.record_defs.specs.Records.{largest_file};
ghost use Rattle.machine_defs.specs.Events.{AreBytes};
ghost use Rattle.vault_core.specs.declared.wish.BeginFault.TheVariants as fault;
ghost use Rattle.vault.specs.Benches.{IsBenchFor, AreOfDesk, AreServed, is_sized, is_served};

use crate::desk::Desk;
use code_points::profile_at;
use column_codec::Bench;
use file_layout::FileShape;
use record_defs::LARGEST_FILE;
use std::alloc::Global;
use vault_core::BeginFault;

/// What a slice of bytes holds are bytes.
pub(crate) fn bytes_are_bytes(bytes: &[u8])
    ensures { AreBytes bytes.now }
{}

/// One of these benches makes blocks of this size.
fn has_size(benches: &[Bench], size: u32) -> bool
    ensures { result ≡ list_any (is_sized size) benches.now }
{
    benches
        .iter()
        .any(|bench| bench.keys.file.profile.size == size)
}

/// The place of a bench whose blocks have this size.
pub(crate) fn place_of(benches: &[Bench], size: u32) -> Option<usize>
    ensures { result ≡ position (is_sized size) benches.now }
{
    benches
        .iter()
        .position(|bench| bench.keys.file.profile.size == size)
}

impl Desk {
    /// A bench for a file of this number, length and profile.
    pub(crate) fn bench_for(&self, id: u64, length: u32, profile: u8) -> Result<Bench, BeginFault>
        requires { length ≤ largest_file }
        ensures ok { IfOk result (λ bench. IsBenchFor self.now id length profile bench) }
        ensures err { IsErr result → IsErrOf result fault.Memory }
    {
        let file = FileShape {
            id,
            length,
            shape: self.shape,
            profile: profile_at(profile),
        };
        match Bench::made(self.alloc, &self.master, &file) {
            Ok(bench) => Ok(bench),
            Err(_) => Err(BeginFault::Memory),
        }
    }

    /// Puts a bench for a profile behind others, where neither the own one nor one of them is for it. It is
    /// one for the largest file, since a repair turns to files of any length.
    fn serve(&self, own: &Bench, others: &mut Vec<Bench>, profile: u8) -> Result<(), BeginFault>
        ensures served { OnOk result (is_served profile (own.now ∷ others.new.items) ≡ true) }
        ensures of_desk { AreOfDesk self.now others.old.items
            → OnOk result (AreOfDesk self.now others.new.items) }
        ensures stay { (p : ℕ) → is_served p (own.now ∷ others.old.items) ≡ true
            → OnOk result (is_served p (own.now ∷ others.new.items) ≡ true) }
        ensures err { IsErr result → IsErrOf result fault.Memory }
    {
        let size = profile_at(profile).size;
        if own.keys.file.profile.size == size {
            return Ok(());
        }
        if has_size(others, size) {
            return Ok(());
        }
        if others.reserve(1).is_err() {
            return Err(BeginFault::Memory);
        }
        let bench = self.bench_for(0, LARGEST_FILE, profile)?;
        others.push_reserved(bench);
        Ok(())
    }

    /// With the own bench, one for each profile of the files in effect.
    pub(crate) fn others_for(&self, own: &Bench) -> Result<Vec<Bench>, BeginFault>
        ensures of_desk { IfOk result (λ others. AreOfDesk self.now others.items) }
        ensures served { IfOk result (λ others.
            AreServed self.now.core.table.files (own.now ∷ others.items)) }
        ensures err { IsErr result → IsErrOf result fault.Memory }
    {
        let mut others = Vec::new(self.alloc);
        let mut place = self.core.table().count();
        while place > 0 {
            place -= 1;
            match self.core.table().at(place) {
                Some(file) => self.serve(own, &mut others, file.profile)?,
                None => unreachable!(),
            }
        }
        Ok(others)
    }
}
