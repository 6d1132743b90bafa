use forged_stores::Stored;

/// Something that is done to a store or seen of it, and what is to come of it. A command is a line of words
/// and the bytes of its source; a block is the first one of an object, and of the object 1 where none is
/// told.
#[derive(Clone, Copy)]
pub enum Deed {
    /// A command ends with 0 and writes this.
    Done(&'static str, &'static [u8], &'static [u8]),
    /// A command ends with this status, which speaks of this place, and writes nothing.
    Refused(&'static str, &'static [u8], u8, u64),
    /// A command whose source has the bytes `abc`, and fails at one of its calls, ends with this status.
    OverSource(&'static str, u64, u8),
    /// The same with a source of these bytes; it writes nothing.
    StopsAt(&'static str, &'static [u8], u64, u8),
    /// A command whose source has so many bytes ends with this status, and has written this.
    Long(&'static str, usize, u8, &'static [u8]),
    /// A command whose sink fails at one of its calls ends with this status, and has written this.
    OverSink(&'static str, &'static [u8], u64, u8, &'static [u8]),
    /// A command ends with 0, and writes this where that is looked at; or it finds no memory and, made again,
    /// ends so, or with this status.
    Again(&'static str, &'static [u8], Option<&'static [u8]>, u8),
    /// A command over a disk whose write of this number, from 0 on, finds no memory ends with 70, and writes
    /// nothing.
    Pinched(&'static str, &'static [u8], u64),
    /// The jobs of the last command that heard something heard so much each.
    Heard(&'static [usize]),
    /// Its first job heard, from each of so many providers in turn, the block that the provider holds.
    HeardHeld(usize),
    /// It ended with 0, and wrote other bytes than those of the file of a store.
    WroteOther(Stored),
    /// The disk is another, which reads these bytes.
    DiskBecomes(&'static [u8]),
    /// The disk is another, whose second area is the active one and reads these bytes; the first area has zero
    /// bytes.
    SecondBecomes(&'static [u8]),
    /// The disk is another, which reads the long journal of a store of six in the first area. Its last record
    /// is the start of a put whose name has so many letters: with three the text ends where the second area
    /// begins.
    LongBecomes(usize),
    /// The disk is another, which reads the journal of a store.
    DiskOf(Stored),
    /// The disk is stopped by these picks; loose bytes past their end stay.
    Stops(&'static [u8]),
    /// From now on the disk, whose bytes stay, fails at these of its calls.
    DiskFails(&'static [u64]),
    /// Only so many providers are left.
    Providers(usize),
    /// A provider loses its block.
    Loses(usize),
    /// A provider loses its block of the object 1, or else of the object 2.
    LosesOne(usize),
    /// A provider loses its block of an object.
    LosesOf(usize, u64),
    /// So many files of three bytes are put, each under a name of its own: the numbers from 0 on.
    Puts(u32),
    /// A provider's block has another symbol at a place.
    Alters(usize, u32, u128),
    /// The blocks that the providers hold are kept in mind.
    Keeps,
    /// They are again those that were kept in mind.
    Mended,
    /// The disk reads these bytes.
    DiskIs(&'static [u8]),
    /// From this offset on the disk reads these bytes.
    DiskReads(usize, &'static [u8]),
    /// The disk reads so many bytes.
    DiskHas(usize),
    /// The disk reads the journal of a store, and there are providers enough for it.
    Known(Stored),
    /// A provider holds the block of an object.
    Holds(usize, u64),
    /// A provider does not.
    Lacks(usize, u64),
    /// So many providers hold the block.
    Holders(usize),
    /// A provider's block has so many symbols, and whether all are zero.
    Block(usize, usize, bool),
    /// So many providers, the first ones, hold the blocks of an object and so many stripes, of so many
    /// symbols each, and the others none of it.
    Blocks(usize, u64, u32, usize),
}
