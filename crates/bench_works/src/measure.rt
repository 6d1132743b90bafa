use crate::audit::AuditWork;
use crate::decode::DecodeWork;
use crate::encode::EncodeWork;
use crate::failure::Failure;
use crate::field::FieldWork;
use crate::get::GetWork;
use crate::outcome::Outcome;
use crate::put::PutWork;
use crate::spoilt::Spoilt;
use std::alloc::Global;
use std::rt::Clock;
use std::time::Instant;

/// The forms of a command line, a kind of work after another.
pub const FORMS: &str =
    "product|square|inverse COUNT, encode PROFILE BLOCKS, decode PROFILE BLOCKS ERRORS, put-stripes|get-stripes N L B PROFILE BYTES, get-spoilt codewords|garbage|errors COUNT N L B PROFILE BYTES, or audit N L B ROUNDS PICKS";

/// A piece of work that was made ready. Each kind stands in a file of its own, as a type with `from_words` and
/// `run`; a further kind is one more line below, and its forms in `FORMS`.
trait Work {
    /// Does the work, which may take memory.
    fn outcome(&self, alloc: Global) -> Result<Outcome, Failure>;
}

impl Work for FieldWork {
    fn outcome(&self, _: Global) -> Result<Outcome, Failure> {
        Ok(self.run())
    }
}

impl Work for EncodeWork {
    fn outcome(&self, _: Global) -> Result<Outcome, Failure> {
        Ok(self.run())
    }
}

impl Work for DecodeWork {
    fn outcome(&self, alloc: Global) -> Result<Outcome, Failure> {
        self.run(alloc)
    }
}

impl Work for PutWork {
    fn outcome(&self, alloc: Global) -> Result<Outcome, Failure> {
        self.run(alloc)
    }
}

impl Work for GetWork {
    fn outcome(&self, alloc: Global) -> Result<Outcome, Failure> {
        self.run(alloc)
    }
}

impl Work for AuditWork {
    fn outcome(&self, alloc: Global) -> Result<Outcome, Failure> {
        self.run(alloc)
    }
}

/// What a work comes to, and in how many nanoseconds.
fn timed<W: Work + Drop>(
    rt: &(impl AllocGlobal + Clock),
    work: W,
) -> Result<(Outcome, u128), Failure> {
    let start = Instant::now(rt)?;
    let outcome = work.outcome(rt.alloc())?;
    Ok((outcome, start.elapsed(rt)?.as_nanos()))
}

/// Does the work on symbols or blocks that a name and the words behind it name.
fn measured_on_blocks(
    rt: &(impl AllocGlobal + Clock),
    name: &str,
    words: &[String],
) -> Result<(Outcome, u128), Failure> {
    match name {
        "encode" => timed(rt, EncodeWork::from_words(rt.alloc(), words)?),
        "decode" => timed(rt, DecodeWork::from_words(rt.alloc(), words)?),
        _ => timed(rt, FieldWork::from_words(name, words)?),
    }
}

/// Does the work that these words name, and tells what it came to and in how many nanoseconds. It is made
/// ready before the clock is read. `Usage` where they name none; `Fault` for want of memory or of a clock.
pub fn measured(
    rt: &(impl AllocGlobal + Clock),
    words: &[String],
) -> Result<(Outcome, u128), Failure> {
    let [name, rest @ ..] = words else {
        return Err(Failure::Usage);
    };
    match name.as_str() {
        "put-stripes" => timed(rt, PutWork::from_words(rt.alloc(), rest)?),
        "get-stripes" => timed(rt, GetWork::from_words(rt.alloc(), Spoilt::NONE, rest)?),
        "get-spoilt" => timed(rt, GetWork::spoilt_from_words(rt.alloc(), rest)?),
        "audit" => timed(rt, AuditWork::from_words(rt.alloc(), rest)?),
        name => measured_on_blocks(rt, name, rest),
    }
}
