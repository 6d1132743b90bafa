ghost use Rattle.std.specs.Prelude.{◌≡◌, ◌≤◌, ◌+◌, ◌-◌, ◌++◌, min, length, take, drop};

/// Copies as many bytes from `at` on as fit or are there.
pub fn copy_front(bytes: &[u8], at: usize, out: &mut [u8]) -> usize
    requires { at ≤ length bytes.now }
    ensures as_many { result ≡ min (length out.old) (length bytes.now - at) }
    ensures given { drop at bytes.now ≡ take result out.new ++ drop (at + result) bytes.now }
{
    let n = out.len().min(bytes.len() - at);
    out[..n].copy_from_slice(&bytes[at..at + n]);
    n
}
