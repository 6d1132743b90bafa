// The pieces of a source that is read stripe by stripe.
ghost use Rattle.std.specs.Prelude.{◌≡◌, length, ◌≤◌, IfOk, OnErr, IsErr};
ghost use Rattle.device_defs.specs.Faults.{HasCause};
ghost use Rattle.record_defs.specs.Records.{largest_file};
ghost use Rattle.machine_defs.specs.Events.{AreBytes};
ghost use Rattle.command_defs.specs.Commands.{ReadsWithin};
ghost use Rattle.command_jobs.specs.Pieces.{ReadsPiece};

use stream_model::{Failed, Source};

/// How many bytes of a source are read at most: one more than the longest file has.
const PAST_LONGEST: usize = record_defs::LARGEST_FILE as usize + 1;

/// What a slice of bytes holds are bytes.
pub(crate) fn bytes_are_bytes(bytes: &[u8])
    ensures { AreBytes bytes.now }
{}

/// Reads the next bytes of a source of which so many were read: a stripe of them, or up to the source's end,
/// or up to the first byte that no file has room for. Answers how many they are.
pub(crate) fn read_piece<S: Source>(
    stripe: &mut [u8],
    before: usize,
    source: &mut S,
) -> Result<usize, Failed>
    requires { before ≤ largest_file }
    ensures piece { IfOk result (λ count. ReadsPiece before stripe.new count (S.left source.old)
        (S.left source.new)) }
    ensures short { OnErr result (ReadsWithin before (length stripe.new) (S.left source.old)
        (S.left source.new)) }
    ensures room { length stripe.new ≡ length stripe.old }
    ensures cause { HasCause (S.faults source.old) (S.faults source.new) (IsErr result) }
{
    let most = stripe.len().min(PAST_LONGEST - before);
    let mut count = 0usize;
    while count < most {
        bytes_are_bytes(stripe);
        let given = source.read(&mut stripe[count..most])?;
        if given == 0 {
            bytes_are_bytes(stripe);
            return Ok(count);
        }
        count += given;
    }
    bytes_are_bytes(stripe);
    Ok(count)
}
