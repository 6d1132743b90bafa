use crate::flight::Flight;
use crate::tasks::Running;
use column_codec::Codec;
use hail_field::Shape;
use key_schedule::Master;
use record_codec::Setup;
use std::alloc::Global;
use vault_core::Core;

/// What a vault works with: the core, where the journal's area begins in bytes from the start of the disk, the
/// numbers of its setup, the registers of the decoders, the append in flight, and what each running job works
/// with.
#[derive(Drop)]
pub struct Desk {
    pub alloc: Global,
    pub core: Core,
    pub base: u64,
    pub setup: Setup,
    pub master: Master,
    pub shape: Shape,
    pub codec: Codec,
    pub flight: Option<Flight>,
    pub jobs: Vec<Running>,
}
