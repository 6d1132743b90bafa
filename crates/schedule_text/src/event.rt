use hail_field::Symbol;
use key_schedule::Master;
use record_codec::Setup;
use stream_model::Bytes;

/// An event of a replay: what one line of a schedule asks for. A name is the bytes of its word, whatever they
/// are: they may be no name of a file.
#[derive(Drop)]
pub enum Event {
    /// Sets the disk up.
    Init {
        setup: Setup,
        master: Master,
    },
    /// The begin of a put; with a profile where the line names one by its number, and there may be none of
    /// this number.
    BeginPut {
        name: Bytes,
        bytes: Bytes,
        profile: Option<u8>,
    },
    BeginGet {
        name: Bytes,
    },
    BeginDrop {
        name: Bytes,
    },
    BeginAudit,
    BeginRepair,
    BeginUpgrade,
    BeginScrub,
    BeginPack,
    /// One step of a job.
    Step {
        job: u32,
    },
    /// As many steps of a job as it takes until the answer is not that there are more.
    Run {
        job: u32,
    },
    /// Replaces one symbol of a block that a provider holds.
    Alter {
        provider: u32,
        object: u64,
        stripe: u32,
        place: u32,
        symbol: Symbol,
    },
    /// A provider loses a block.
    Lose {
        provider: u32,
        object: u64,
        stripe: u32,
    },
    /// The vault is given up, and the disk becomes the image that these picks choose.
    Stop {
        picks: Bytes,
    },
    Reopen,
    /// Asks for the names in effect.
    List,
}
