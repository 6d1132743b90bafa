ghost use Rattle.std.specs.Prelude.{◌≡◌, ◌≤◌, None, length, IfOk, OnOk, OnErr};
ghost use Rattle.device_defs.specs.Faults.{one_more};

use file_parts::transfer::read_some;
use file_parts::tried::tried;
use hail_field::Memory;
use std::marker::Model;
use std::rt::Runtime;
use stream_model::{Failed, Source};

/// Standard input as a source, seen in contracts as its count of faults. It tells nothing of what is left.
#[derive(Drop)]
pub struct StdSource<R: Runtime> {
    rt: R,
    faults: u64,
}

impl<R: Runtime> Model for StdSource<R> {
    ghost use Rattle.std.specs.Prelude.{ℕ};

    ghost Value = { ℕ };

    ghost view = { λ source. source.faults };
}

impl<R: Runtime> StdSource<R> {
    /// Opens nothing. Want of memory is its one refusal.
    pub fn new(rt: &R) -> Result<StdSource<R>, Memory>
        ensures { IfOk result (λ source. source ≡ 0) }
    {
        Ok(StdSource {
            rt: rt.clone()?,
            faults: 0,
        })
    }
}

impl<R: Runtime> Source for StdSource<R> {
    ghost left = { λ _. None };

    ghost faults = { λ source. source };

    fn read(&mut self, out: &mut [u8]) -> Result<usize, Failed>
        ensures at_most { IfOk result (λ n. n ≤ length out.old) }
        ensures ok { OnOk result (self.new ≡ self.old) }
        ensures failed { OnErr result (self.new ≡ one_more self.old) }
    {
        tried(read_some(&mut self.rt.reader(), out), &mut self.faults)
    }
}
