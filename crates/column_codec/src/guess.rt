//! A guess at the symbols of a stripe. Nothing is said of it but that it is one: whether it is right is
//! counted afterwards.
ghost use Rattle.std.specs.Prelude.{◌≡◌, ◌≤◌, ◌<◌, IfSome, length};

use crate::gather::add_each;
use crate::keys::ObjectKeys;
use crate::opened::Opened;
use hail_field::Symbol;

/// How many primary providers may be lacking: there are at most 16, and as many others take their places.
const MOST_LACKING: usize = 8;

/// The provider that comes at an index among those from one on, and before another, which are trusted or not.
fn pick(trusted: &[bool; 16], are: bool, from: usize, end: usize, index: usize) -> Option<usize>
    requires end { end ≤ 16 }
    ensures before { IfSome result (λ j. j < end) }
    ensures from { IfSome result (λ j. from ≤ j) }
{
    let mut before = 0;
    for j in from..end {
        if trusted[j] == are {
            if before == index {
                return Some(j);
            }
            before += 1;
        }
    }
    None
}

/// How many of the first providers are not trusted.
pub(crate) fn lacking(trusted: &[bool; 16], l: usize) -> usize
    requires { l ≤ 16 }
{
    let mut count = 0;
    for j in 0..l {
        if !trusted[j] {
            count += 1;
        }
    }
    count
}

/// Adds to each symbol a factor times the one at its place.
fn add_multiples(factor: Symbol, from: &[Symbol], out: &mut [Symbol])
    requires { length out.old ≤ length from.now }
{
    for i in 0..out.len() {
        out[i] = out[i].add(factor.mul(from[i]));
    }
}

impl ObjectKeys {
    ghost use Rattle.std.specs.Prelude.{◌≡◌, ◌≤◌, ◌<◌, ◌*◌, length};

    /// The weight at a primary provider's point of one of the trusted providers before an end.
    fn share(&self, trusted: &[bool; 16], end: usize, provider: usize, primary: usize) -> Symbol
        requires end { end ≤ 16 }
        requires provider { provider < 16 }
        requires primary { primary < 16 }
    {
        let mut above = Symbol::ONE;
        let mut below = Symbol::ONE;
        for t in 0..end {
            if trusted[t] && t != provider {
                above = above.mul(self.points[primary].add(self.points[t]));
                below = below.mul(self.points[provider].add(self.points[t]));
            }
        }
        above.mul(below.inv().unwrap_or(Symbol::ZERO))
    }

    /// Adds to the symbols of a primary provider those residues, of the first trusted secondary ones, by
    /// their shares in it.
    fn add_residues(
        &self,
        trusted: &[bool; 16],
        end: usize,
        primary: usize,
        residues: &[[Symbol; 96]],
        row: &mut [Symbol],
    )
        requires end { end ≤ 16 }
        requires primary { primary < 16 }
        requires row { length row.old ≤ 96 }
    {
        let (l, n) = (
            usize::from(self.file.shape.l),
            usize::from(self.file.shape.n),
        );
        for i in 0..residues.len() {
            if let Some(helper) = pick(trusted, true, l, n, i) {
                let share = self.share(trusted, end, helper, primary);
                add_multiples(share, &residues[i], row);
            }
        }
    }

    /// Fills in the symbols of as many lacking primary providers as there are residues.
    fn fill_lacking(
        &self,
        trusted: &[bool; 16],
        end: usize,
        residues: &[[Symbol; 96]],
        rows: &mut [Symbol],
    )
        requires end { end ≤ 16 }
        requires rows { length rows.old ≡ self.now.file.shape.l * self.now.file.profile.keep }
    {
        let keep = self.file.profile.keep as usize;
        let l = usize::from(self.file.shape.l);
        for i in 0..residues.len() {
            if let Some(primary) = pick(trusted, false, 0, l, i) {
                let row = &mut rows[primary * keep..primary * keep + keep];
                self.add_residues(trusted, end, primary, residues, row);
            }
        }
    }
}

impl<'a> Opened<'a> {
    ghost use Rattle.std.specs.Prelude.{◌≡◌, ◌≤◌, ◌<◌, ◌*◌, length};

    /// The symbols at the kept places of a provider's block.
    fn kept_of(&self, provider: usize) -> &[Symbol]
        requires provider { provider < self.now.keys.now.file.shape.n }
        ensures { length result.now ≡ self.now.keys.now.file.profile.keep }
    {
        let keep = self.keys.file.profile.keep as usize;
        let blocks = self.blocks;
        &blocks[provider].symbols()[..keep]
    }

    /// Copies what trusted primary providers hold of the kept rows, and leaves zeros for the others.
    fn copy_trusted(&self, trusted: &[bool; 16], rows: &mut [Symbol])
        requires rows { length rows.old
            ≡ self.now.keys.now.file.shape.l * self.now.keys.now.file.profile.keep }
    {
        let keep = self.keys.file.profile.keep as usize;
        for j in 0..usize::from(self.keys.file.shape.l) {
            let row = &mut rows[j * keep..j * keep + keep];
            if trusted[j] {
                row.copy_from_slice(self.kept_of(j));
            } else {
                row.fill(Symbol::ZERO);
            }
        }
    }

    /// What a secondary provider holds of the kept rows beyond their values by `rows` at its point.
    #[tactic(auto, using(crate::proofs::RowLemmas::profile_small))]
    fn residue(&self, provider: usize, rows: &[Symbol], out: &mut [Symbol; 96])
        requires secondary { self.now.keys.now.file.shape.l ≤ provider }
        requires provider { provider < self.now.keys.now.file.shape.n }
        requires rows { length rows.now
            ≡ self.now.keys.now.file.shape.l * self.now.keys.now.file.profile.keep }
    {
        let keep = self.keys.file.profile.keep as usize;
        let out = &mut out[..keep];
        self.keys.kept_into(rows, provider, out);
        add_each(out, self.kept_of(provider));
    }

    /// Fills in the symbols of lacking primary providers, from the residues of as many secondary ones.
    fn replace_lacking(&self, trusted: &[bool; 16], lacking: usize, end: usize, rows: &mut [Symbol])
        requires lacking { lacking ≤ 8 }
        requires end { end ≤ 16 }
        requires rows { length rows.old
            ≡ self.now.keys.now.file.shape.l * self.now.keys.now.file.profile.keep }
    {
        let (l, n) = (
            usize::from(self.keys.file.shape.l),
            usize::from(self.keys.file.shape.n),
        );
        let mut residues = [[Symbol::ZERO; 96]; MOST_LACKING];
        for i in 0..lacking {
            if let Some(helper) = pick(trusted, true, l, n, i) {
                self.residue(helper, rows, &mut residues[i]);
            }
        }
        self.keys
            .fill_lacking(trusted, end, &residues[..lacking], rows);
    }

    /// Fills `rows` with a guess at the symbols of a stripe by the trusted providers: what the primary ones
    /// hold, and in the place of those that are not trusted what follows from as many trusted secondary ones.
    /// False where these are too few.
    pub(crate) fn guess(&self, trusted: &[bool; 16], rows: &mut [Symbol]) -> bool
        requires rows { length rows.old
            ≡ self.now.keys.now.file.shape.l * self.now.keys.now.file.profile.keep }
    {
        let (l, n) = (
            usize::from(self.keys.file.shape.l),
            usize::from(self.keys.file.shape.n),
        );
        self.copy_trusted(trusted, rows);
        let lacking = lacking(trusted, l);
        if lacking == 0 {
            return true;
        }
        if lacking > MOST_LACKING {
            return false;
        }
        match pick(trusted, true, l, n, lacking - 1) {
            Some(last) => {
                self.replace_lacking(trusted, lacking, last + 1, rows);
                true
            }
            None => false,
        }
    }
}
