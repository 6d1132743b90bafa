// The words of the command line.
ghost use Rattle.std.specs.Prelude.{◌≡◌, ◌↔◌, ◌⊎◌, codes, IfErr, IsTrue};

use exit_statuses::{NO_MEMORY, USAGE};
use std::env::{self, Env};
use std::io::ErrorKind;

/// The words after the program's name. Words that are no text are a faulty command line.
pub fn words(rt: &(impl Env + AllocGlobal)) -> Result<Vec<String>, u8>
    ensures { IfErr result (λ status. (status ≡ 2) ⊎ (status ≡ 70)) }
{
    let all = match env::args(rt) {
        Ok(all) => all,
        Err(error) if error.kind() == ErrorKind::OutOfMemory => return Err(NO_MEMORY),
        Err(_) => return Err(USAGE),
    };
    match all.skip(1).collect(rt.alloc()) {
        Ok(words) => Ok(words),
        Err(_) => Err(NO_MEMORY),
    }
}

/// Whether the command of this name only reads the home.
fn is_reader(command: &str) -> bool
    ensures { IsTrue result ↔ ((command.now ≡ codes "get") ⊎ (command.now ≡ codes "list")) }
{
    command == "get" || command == "list"
}

/// Whether the command of this name stores blocks at the providers of a journal.
fn is_storer(command: &str) -> bool
    ensures { IsTrue result ↔ ((command.now ≡ codes "put") ⊎ ((command.now ≡ codes "repair")
        ⊎ (command.now ≡ codes "scrub"))) }
{
    command == "put" || command == "repair" || command == "scrub"
}

/// Whether the words are a command that stores blocks at the providers of a journal.
pub fn stores_blocks(words: &[String]) -> bool {
    match words {
        [command, ..] => is_storer(command.as_str()),
        [] => false,
    }
}

/// Whether the words are a command that only reads the home.
pub fn only_reads(words: &[String]) -> bool {
    match words {
        [command, ..] => is_reader(command.as_str()),
        [] => false,
    }
}
