// The status that a server ends with.
ghost use Rattle.std.specs.Prelude.{◌≡◌};
ghost use Rattle.provider_wire.specs.Ends.{end_of};
ghost use Rattle.provider_server.specs.Answers.{served_status, place_of};

use exit_statuses::{BAD_FRAME, NO_MEMORY, SINK_FAULT, SOURCE_FAULT, TOO_LONG};
use provider_wire::ServeEnd;

/// The source was read to its end, and every request answered.
const DONE: u8 = 0;

/// How a server ended: its status, and at the status of a bad frame the offset of its first byte, at every
/// other 0.
#[derive(Clone, Copy, Debug, PartialEq, Eq)]
pub struct Served {
    pub status: u8,
    pub at: u64,
}

/// The status that a server's end has.
pub fn told(end: ServeEnd) -> Served
    ensures status { result.status ≡ served_status (end_of end) }
    ensures place { result.at ≡ place_of (end_of end) }
{
    let status = match end {
        ServeEnd::Done => DONE,
        ServeEnd::BadFrame { at } => {
            return Served {
                status: BAD_FRAME,
                at,
            };
        }
        ServeEnd::TooLong => TOO_LONG,
        ServeEnd::SourceFault => SOURCE_FAULT,
        ServeEnd::SinkFault => SINK_FAULT,
        ServeEnd::Memory => NO_MEMORY,
    };
    Served { status, at: 0 }
}
