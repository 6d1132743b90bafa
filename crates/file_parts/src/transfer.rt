// Reads and writes that begin anew where a signal cut them off.
ghost use Rattle.std.specs.Prelude.{◌≡◌, ◌≤◌, ◌<◌, ◌+◌, ◌↔◌, length, take, IfOk, IfSome, IsTrue};
ghost use Rattle.std.specs.Io.KnownBytes.{Consumes, IsAtEnd, ReadConsumes};

use crate::block_bytes::BLOCK_BYTES;
use std::io;
use std::io::{ErrorKind, Print, Read};

/// One read.
pub fn read_some<F: Read>(reader: &mut F, out: &mut [u8]) -> io::Result<usize>
    ensures at_most { IfOk result (λ n. n ≤ length out.old) }
    ensures bytes { ReadConsumes (F.remaining reader.old) (F.remaining reader.new) result out.new }
{
    for _ in 0..u64::MAX {
        match reader.read(out) {
            Err(error) if error.kind() == ErrorKind::Interrupted => {}
            answer => return answer,
        }
    }
    Err(ErrorKind::Interrupted.into())
}

/// Reads as many bytes as fit or are left, and says how many.
pub fn fill<F: Read>(reader: &mut F, out: &mut [u8]) -> io::Result<usize>
    ensures at_most { IfOk result (λ n. n ≤ length out.old) }
    ensures given { IfOk result (λ n. Consumes (F.remaining reader.old) (F.remaining reader.new)
        (take n out.new)) }
    ensures as_many { IfOk result (λ n. n < length out.old → IsAtEnd (F.remaining reader.new)) }
{
    let mut done = 0;
    while done < out.len() {
        let n = read_some(reader, &mut out[done..])?;
        if n == 0 {
            return Ok(done);
        }
        done += n;
    }
    Ok(done)
}

/// Whether two are the same bytes.
fn are_same(given: &[u8], bytes: &[u8]) -> bool
    ensures { IsTrue result ↔ given.now ≡ bytes.now }
{
    given == bytes
}

/// Whether the bytes that a reader has left are these, by what it gives into room for one more.
fn given_into<F: Read>(reader: &mut F, bytes: &[u8], room: &mut [u8]) -> io::Result<bool>
    requires { length room.old ≡ length bytes.now + 1 }
    ensures { IfOk result (λ same. IfSome (F.remaining reader.old) (λ left. IsTrue same ↔ left ≡ bytes.now)) }
{
    let n = fill(reader, room)?;
    Ok(are_same(&room[..n], bytes))
}

/// Whether the bytes that a reader has left are these, which are at most those of the longest block.
pub fn gives<F: Read>(reader: &mut F, bytes: &[u8]) -> io::Result<bool>
    requires { length bytes.now ≤ 2048 }
    ensures { IfOk result (λ same. IfSome (F.remaining reader.old) (λ left. IsTrue same ↔ left ≡ bytes.now)) }
{
    let mut buffer = [0; BLOCK_BYTES + 1];
    given_into(reader, bytes, &mut buffer[..bytes.len() + 1])
}

/// One write, which takes something of a piece that is not empty.
pub fn write_some<R: Print>(rt: &R, bytes: &[u8]) -> io::Result<usize>
    ensures at_most { IfOk result (λ n. n ≤ length bytes.now) }
    ensures some { IfOk result (λ n. 0 < length bytes.now → 0 < n) }
{
    for _ in 0..u64::MAX {
        match rt.write_some(bytes) {
            Ok(0) if !bytes.is_empty() => return Err(ErrorKind::WriteZero.into()),
            Err(error) if error.kind() == ErrorKind::Interrupted => {}
            answer => return answer,
        }
    }
    Err(ErrorKind::Interrupted.into())
}
