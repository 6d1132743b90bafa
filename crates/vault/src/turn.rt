use crate::heard::HeardList;
use record_codec::Counts;
use stream_model::Bytes;

/// How a job ended.
#[derive(Drop)]
pub enum Answer {
    /// The file is in effect.
    Put,
    /// The bytes of the file.
    Got {
        bytes: Bytes,
    },
    /// The file is no longer in effect.
    Dropped,
    /// The audit is done: its number, how many rounds were undecided, and how often each provider was
    /// counted.
    Audited {
        number: u64,
        undecided: u32,
        counts: Counts,
    },
    /// The repair of this audit is done.
    Repaired {
        number: u64,
    },
    /// The journal has its second version.
    Upgraded,
    /// The lowest row of a stripe that is not accepted.
    Lost {
        stripe: u32,
        row: u64,
    },
    /// A store of this provider failed.
    ProviderFault {
        provider: u32,
    },
    /// A call of the disk failed: the vault must be opened anew.
    DiskFault,
    /// Memory ran out.
    Memory,
}

/// A job that ended: its answer, and what it heard, in order.
#[derive(Drop)]
pub struct Ended {
    pub answer: Answer,
    pub heard: HeardList,
}

/// What came of a step of a job.
#[derive(Drop)]
pub enum Turn {
    /// The job goes on.
    More,
    /// The job waits for the append of this one.
    Waiting { holder: u32 },
    /// The job ended.
    Done(Ended),
    /// No running job has the number.
    NoSuchJob,
    /// A call of the disk failed earlier: the vault must be opened anew.
    MustReopen,
}
