/// One action of a job, which makes at most one call of a device.
#[derive(Clone, Copy)]
pub enum Action {
    /// Write the record of the job's append, and the closed gate behind it.
    WriteBody,
    /// Sync the disk.
    SyncBody,
    /// Open the gate in front of the record.
    WriteGate,
    /// Sync the disk; then the record is in effect.
    SyncGate,
    /// Store a block of a stripe on a provider.
    Store {
        provider: u32,
        object: u64,
        stripe: u32,
    },
    /// Fetch a block of a stripe from a provider.
    Fetch {
        provider: u32,
        object: u64,
        stripe: u32,
    },
    /// Ask a provider the challenge of a round.
    Ask {
        provider: u32,
        object: u64,
        round: u32,
    },
    /// Open the stripe whose blocks were just fetched.
    Work {
        object: u64,
        stripe: u32,
    },
    /// Remove an object that is no longer in effect from a provider.
    Remove {
        provider: u32,
        object: u64,
    },
    /// End the job.
    End,
}

/// What comes next for a job.
#[derive(Clone, Copy)]
pub enum Next {
    /// This action is to be made.
    Act(Action),
    /// The job would begin an append while that of another job is in flight.
    Waiting { holder: u32 },
    /// No running job has the number.
    NoSuchJob,
    /// A disk call of these jobs failed.
    MustReopen,
}
