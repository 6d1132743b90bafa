/// The one job of a command that reads no source.
#[derive(Drop)]
pub enum Job<'a> {
    /// Get the file of a name.
    Get { name: &'a [u8] },
    /// Drop the file of a name.
    Drop { name: &'a [u8] },
    /// Audit all files in effect.
    Audit,
    /// Rebuild the providers that the last audit flagged.
    Repair,
    /// Bring the journal's second version into effect.
    Upgrade,
}
