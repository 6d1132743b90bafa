// One line of its own for each command that changes something.
ghost use Rattle.std.specs.Prelude.{◌≡◌, IfOk};
ghost use Rattle.command_defs.specs.Lines.{ready_line, stored_line, dropped_line, repaired_line, upgraded_line, packed_line};

use crate::pieces::{numbered_line, push_counted, push_line};
use std::alloc::Global;
use stream_model::{Bytes, Memory};

/// The line after an init.
pub fn ready_line() -> &'static [u8]
    ensures { result.now ≡ ready_line }
{
    b"ready\n"
}

/// The line after a put: the file's name and its length in bytes. Want of memory is its one refusal.
pub fn stored_line(alloc: Global, name: &[u8], length: usize) -> Result<Bytes, Memory>
    ensures { IfOk result (λ line. line ≡ stored_line name.now length) }
{
    let mut text = b"stored ".to_vec(alloc)?;
    push_line(alloc, &mut text, name, length as u64)?;
    Ok(Bytes::from_vec(text))
}

/// The line after a drop: the file's name. Want of memory is its one refusal.
pub fn dropped_line(alloc: Global, name: &[u8]) -> Result<Bytes, Memory>
    ensures { IfOk result (λ line. line ≡ dropped_line name.now) }
{
    let mut text = b"dropped ".to_vec(alloc)?;
    text.extend_from_slice(name)?;
    text.push(b'\n')?;
    Ok(Bytes::from_vec(text))
}

/// The line after a repair: the number of the audit that was due. Want of memory is its one refusal.
pub fn repaired_line(alloc: Global, number: u64) -> Result<Bytes, Memory>
    ensures { IfOk result (λ line. line ≡ repaired_line number) }
{
    numbered_line(alloc, b"repaired", number)
}

/// The line after an upgrade.
pub fn upgraded_line() -> &'static [u8]
    ensures { result.now ≡ upgraded_line }
{
    b"upgraded\n"
}

/// The line after a pack: the lengths of the journal's text before and after, in bytes. Want of memory is its
/// one refusal.
pub fn packed_line(alloc: Global, before: u64, after: u64) -> Result<Bytes, Memory>
    ensures { IfOk result (λ line. line ≡ packed_line before after) }
{
    let mut text = Vec::new(alloc);
    push_counted(alloc, &mut text, b"packed", before)?;
    push_line(alloc, &mut text, b"", after)?;
    Ok(Bytes::from_vec(text))
}
