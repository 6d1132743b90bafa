// Reads the first bytes of a source.
ghost use Rattle.std.specs.Prelude.{◌≡◌, IfOk, IsErrOf};
ghost use Rattle.device_defs.specs.Faults.{HasCause};
ghost use Rattle.machine_defs.specs.Events.{AreBytes};
ghost use Rattle.command_defs.specs.Seen.{ReadsAtMost, ReadsUpTo};
ghost use Rattle.hail_top.specs.declared.reading.ReadFault.TheVariants as read_fault;

use std::alloc::{AllocError, Global};
use stream_model::{Bytes, Failed, Source};

/// How many bytes are read at a time, at most.
const PIECE: usize = 1 << 16;

/// Why the bytes of a source were not read.
#[derive(Clone, Copy)]
pub enum ReadFault {
    /// A read failed, and the source's count of faults rose.
    Failed,
    /// Memory ran out.
    Memory,
}

impl From<Failed> for ReadFault {
    ghost from_gives = { λ _ e. e ≡ read_fault.Failed };

    fn from(_: Failed) -> Self {
        ReadFault::Failed
    }
}

impl From<AllocError> for ReadFault {
    ghost from_gives = { λ _ e. e ≡ read_fault.Memory };

    fn from(_: AllocError) -> Self {
        ReadFault::Memory
    }
}

/// What a slice of bytes holds are bytes.
fn bytes_are_bytes(bytes: &[u8])
    ensures { AreBytes bytes.now }
{}

/// What was read, which are bytes.
fn bytes_of(items: Vec<u8>) -> Bytes
    ensures same { result ≡ items.items }
    ensures are_bytes { AreBytes items.items }
{
    bytes_are_bytes(&items);
    Bytes::from_vec(items)
}

/// Reads at most so many bytes, up to the end of the source; no more are taken also where it fails.
pub fn read_up_to<S: Source>(alloc: Global, most: usize, source: &mut S) -> Result<Bytes, ReadFault>
    ensures bytes { IfOk result (λ bytes. ReadsUpTo most (S.left source.old) (S.left source.new) bytes) }
    ensures at_most { ReadsAtMost most (S.left source.old) (S.left source.new) }
    ensures cause { HasCause (S.faults source.old) (S.faults source.new) (IsErrOf result read_fault.Failed) }
{
    let mut piece = vec![in alloc; 0u8; most.min(PIECE)]?;
    let mut bytes = Vec::new(alloc);
    while bytes.len() < most {
        let room = piece.len().min(most - bytes.len());
        let out = &mut piece[..room];
        let count = source.read(out)?;
        if count == 0 {
            return Ok(bytes_of(bytes));
        }
        bytes.extend_from_slice(&out[..count])?;
    }
    Ok(bytes_of(bytes))
}
