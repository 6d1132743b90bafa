/// A job that is begun.
#[derive(Clone, Copy)]
pub enum Job {
    Put(&'static [u8], &'static [u8]),
    /// A put that names a profile.
    PutIn(&'static [u8], &'static [u8], u8),
    Get(&'static [u8]),
    Drop(&'static [u8]),
    Audit,
    Repair,
    Upgrade,
}
