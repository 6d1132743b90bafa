//! The files in effect as a scrub takes them.
ghost use Rattle.std.specs.Prelude.{IfOk};
ghost use Rattle.std.specs.List.{AllZip};
ghost use Rattle.record_defs.specs.Table.{files_of};
ghost use Rattle.machine_defs.specs.Begins.{pin_all};
ghost use Rattle.machine_defs.specs.States.{State, setup_in};
ghost use Rattle.hail_scrub.specs.Begins.{AreFilesOf};
ghost use Rattle.vault_open.specs.Devices.{Devices};
ghost use Rattle.vault.specs.Desks.{DeskStands};
ghost use Rattle.vault.specs.Files.{IsShapeFor, AreShaped};

use crate::desk::Desk;
use code_points::profile_at;
use file_layout::FileShape;
use hail_field::Memory;
use record_defs::LARGEST_FILE;
use std::alloc::Global;
use vault_core::Pinned;

impl Desk {
    /// The shape of a pinned file.
    fn shape_for(&self, pinned: &Pinned) -> FileShape
        ensures { IsShapeFor self.now pinned.now result }
    {
        FileShape {
            id: pinned.id,
            length: pinned.length.min(LARGEST_FILE),
            shape: self.shape,
            profile: profile_at(pinned.profile),
        }
    }

    /// The shapes of pinned files, in order.
    fn shapes_for(&self, alloc: Global, pinned: &[Pinned]) -> Result<Vec<FileShape>, Memory>
        ensures { IfOk result (λ files. AllZip (IsShapeFor self.now) pinned.now files.items) }
    {
        let mut files = Vec::with_capacity(alloc, pinned.len())?;
        for file in pinned {
            match files.push(self.shape_for(file)) {
                Ok(()) => {}
                Err(_) => return Err(Memory),
            }
        }
        Ok(files)
    }

    /// All files in effect, in ascending order of their object numbers.
    pub(crate) fn all_files(&self, alloc: Global) -> Result<Vec<FileShape>, Memory>
        ensures shaped { IfOk result (λ files. AreShaped self.now files.items) }
        ensures files { (w : State) (d : Devices) → DeskStands self.now d w
            → IfOk result (λ files. AreFilesOf (setup_in w) self.now.master.0 files.items
            (pin_all w (files_of w.records))) }
    {
        match self.core.all_pinned(alloc) {
            Ok(pinned) => self.shapes_for(alloc, &pinned),
            Err(_) => Err(Memory),
        }
    }
}
