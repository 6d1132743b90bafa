/// A file that a job works on: its object number, its length in bytes and its profile.
#[derive(Clone, Copy)]
pub struct Pinned {
    pub id: u64,
    pub length: u32,
    pub profile: u8,
}
