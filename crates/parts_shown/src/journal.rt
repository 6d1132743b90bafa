ghost use Rattle.std.specs.Prelude.{◌≤◌};

use disk_model::MemDisk;
use journal_core::Append;
use journal_parts::read_journal;
use record_codec::Record;
use stream_model::WriteFault;

/// Appends the record that these bytes spell behind the gate at this place, in four moves.
fn append(gate: u64, spelling: &[u8], disk: &mut MemDisk) -> Result<bool, WriteFault>
    requires { gate ≤ 1024 }
{
    match Record::read(spelling) {
        Some((record, _)) if record.size() <= 80 => {
            let mut append = Append::new(gate, &record);
            append.turn(disk)?;
            append.turn(disk)?;
            append.turn(disk)?;
            append.turn(disk)
        }
        _ => Err(WriteFault::Memory),
    }
}

#[test]
fn a_record_is_appended_and_read(rt: HostRuntime) {
    let mut disk = MemDisk::new(rt.alloc(), b"HAILJRN1\x00", &[]).expect(&rt, "memory");
    let ended = append(8, b"\x04\x05notes", &mut disk);
    let records = read_journal(rt.alloc(), disk.bytes()).expect(&rt, "a journal");
    assert!(rt; ended == Ok(true) && records.len() == 1);
}
