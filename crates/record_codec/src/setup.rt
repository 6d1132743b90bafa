ghost use Rattle.std.specs.Prelude.{◌≡◌, ℕ, List};
ghost use Rattle.record_defs.specs.Records.{is_setup};
ghost use Rattle.record_codec.specs.Entries.{with_master};
ghost use Rattle.record_codec.specs.Limits.{are_providers, is_audit};

/// The numbers of a store: `n` providers, `l` of them primary, at most `b` of them bad at a time; the profile
/// of the code within a provider; rounds of an audit for each file, picks of a round, and how many wrong
/// rounds an audit tolerates.
#[derive(Clone, Copy, Debug, PartialEq, Eq)]
pub struct Setup {
    pub n: u8,
    pub l: u8,
    pub b: u8,
    pub profile: u8,
    pub rounds: u8,
    pub picks: u8,
    pub tolerance: u16,
}

impl Setup {
    /// Whether every number is within its limits and the profile exists.
    pub fn check(&self) -> bool
        ensures { (master : List ℕ) → result ≡ is_setup (with_master self.now master) }
    {
        self.are_providers() && self.profile < 5 && self.is_audit()
    }

    /// Whether there are 4 to 16 providers, and `l + 2b` of them are fewer than all.
    fn are_providers(&self) -> bool
        ensures { result ≡ are_providers self.now }
    {
        let least = self.l as u16 + 2 * self.b as u16 + 1;
        4 <= self.n && self.n <= 16 && 1 <= self.l && 1 <= self.b && least <= self.n as u16
    }

    /// Whether rounds and picks are 1 to 64, and the tolerance is at most 4,096.
    fn is_audit(&self) -> bool
        ensures { result ≡ is_audit self.now }
    {
        1 <= self.rounds
            && self.rounds <= 64
            && 1 <= self.picks
            && self.picks <= 64
            && self.tolerance <= 4096
    }
}
