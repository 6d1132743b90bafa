// Texts on their way to a sink.
ghost use Rattle.std.specs.Prelude.{◌≡◌, ◌≤◌, []};
ghost use Rattle.device_defs.specs.Faults.{HasCause};
ghost use Rattle.command_defs.specs.Line.{no_row_line};
ghost use Rattle.command_defs.specs.Sinking.{Sinking, WritesLine, TellsLine};

use crate::status::{LOST_ROW, NO_MEMORY, SINK_FAULT, WRITTEN};
use stream_model::{Sink, WriteFault, write_all};

/// Writes the text of a command that succeeded. The sink is not called for an empty text. The status is that
/// of the command.
pub fn write_text<K: Sink>(text: &[u8], sink: &mut K) -> u8
    ensures writes { WritesLine text.now result
        (record {
          old = K.written sink.old;
          new = K.written sink.new;
          before = K.faults sink.old;
          now = K.faults sink.new;
        }) }
    ensures count { K.faults sink.old ≤ K.faults sink.new }
    ensures empty { text.now ≡ [] → (result ≡ 0) × (sink.new ≡ sink.old) }
{
    if text.is_empty() {
        return WRITTEN;
    }
    match write_all(sink, text) {
        Ok(()) => WRITTEN,
        Err(WriteFault::Failed) => SINK_FAULT,
        Err(WriteFault::Memory) => NO_MEMORY,
    }
}

/// Writes that no polynomial is accepted for a row. The status is that of a lost row, also where the sink
/// fails.
pub fn tell_no_row<K: Sink>(sink: &mut K) -> u8
    ensures tells { TellsLine 4 no_row_line result
        (record {
          old = K.written sink.old;
          new = K.written sink.new;
          before = K.faults sink.old;
          now = K.faults sink.new;
        }) }
    ensures count { K.faults sink.old ≤ K.faults sink.new }
{
    match write_all(sink, b"no row\n") {
        Ok(()) | Err(WriteFault::Failed) => LOST_ROW,
        Err(WriteFault::Memory) => NO_MEMORY,
    }
}
