ghost use Rattle.std.specs.Prelude.{IfOk};
ghost use Rattle.vault.specs.Benches.{IsNewAudit};

use crate::heard::Answers;
use crate::tasks::AuditTask;
use hail_field::Memory;
use record_codec::Counts;
use std::alloc::Global;

impl AuditTask {
    /// What an audit of `n` providers works with before its first ask, with room for so many asks.
    pub(crate) fn new(alloc: Global, job: u32, n: u8, asks: usize) -> Result<AuditTask, Memory>
        ensures { IfOk result (IsNewAudit job n asks) }
    {
        let symbols = Vec::with_capacity(alloc, asks)?;
        let asks = Vec::with_capacity(alloc, asks)?;
        Ok(AuditTask {
            heard: Answers { job, asks, symbols },
            undecided: 0,
            counts: Counts { n, by: [0; 16] },
        })
    }
}
