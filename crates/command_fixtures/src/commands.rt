use crate::store::Store;
use crate::told::{Faults, NONE_FAILS, Told, tell};
use disk_model::Disk;
use provider_model::Tamper;
use std::alloc::Global;

/// Whether a command ended with 0, and wrote this where that is looked at.
fn is_well(told: &Told, text: Option<&[u8]>) -> bool {
    match text {
        Some(text) => told.is(0, 0, text),
        None => told.status() == 0,
    }
}

/// So many bytes, all the same. Want of memory is the one refusal.
fn long_bytes(alloc: Global, len: usize) -> Option<Vec<u8>> {
    Some(vec![in alloc; 0xa7u8; len].ok()?)
}

impl<P: Tamper + Drop> Store<P> {
    /// Makes a command over the store and such streams, of which is then told.
    fn make(&mut self, line: &str, input: &[u8], faults: Faults) {
        self.last = tell(
            self.alloc,
            line,
            input,
            faults,
            &mut self.disk,
            &mut self.providers,
        );
    }

    /// Whether the last command ended so.
    pub fn is_told(&self, status: u8, at: u64, text: &[u8]) -> bool {
        match &self.last {
            Some(told) => told.is(status, at, text),
            None => false,
        }
    }

    /// Whether a command ends so.
    pub fn ends(&mut self, line: &str, input: &[u8], status: u8, at: u64, text: &[u8]) -> bool {
        self.make(line, input, NONE_FAILS);
        self.is_told(status, at, text)
    }

    /// Whether a command whose source has the bytes `abc` and fails at one of its calls ends with this
    /// status.
    pub fn over_source(&mut self, line: &str, read: u64, status: u8) -> bool {
        self.make(line, b"abc", Faults { read, ..NONE_FAILS });
        match &self.last {
            Some(told) => told.status() == status,
            None => false,
        }
    }

    /// Whether a command whose source has these bytes and fails at one of its calls ends with this status,
    /// and writes nothing.
    pub fn stops_at(&mut self, line: &str, input: &[u8], read: u64, status: u8) -> bool {
        self.make(line, input, Faults { read, ..NONE_FAILS });
        self.is_told(status, 0, b"")
    }

    /// Whether a command whose source has so many bytes ends with this status, and has written this.
    pub fn over_long(&mut self, line: &str, len: usize, status: u8, text: &[u8]) -> bool {
        match long_bytes(self.alloc, len) {
            Some(bytes) => self.ends(line, &bytes, status, 0, text),
            None => false,
        }
    }

    /// Whether a file of three bytes is put under this number. Want of memory is the one refusal.
    fn puts_one(&mut self, number: u32) -> Option<bool> {
        let line = format!(in self.alloc; "put {number}").ok()?;
        let text = format!(in self.alloc; "stored {number} 3\n").ok()?;
        Some(self.ends(&line, b"abc", 0, 0, text.as_bytes()))
    }

    /// Whether so many files are put, under the numbers from 0 on.
    pub fn puts(&mut self, count: u32) -> bool {
        for number in 0..count {
            if self.puts_one(number) != Some(true) {
                return false;
            }
        }
        true
    }

    /// Whether a command whose sink fails at one of its calls ends with this status, and has written this.
    pub fn over_sink(
        &mut self,
        line: &str,
        input: &[u8],
        write: u64,
        status: u8,
        text: &[u8],
    ) -> bool {
        self.make(
            line,
            input,
            Faults {
                write,
                ..NONE_FAILS
            },
        );
        self.is_told(status, 0, text)
    }

    /// Makes a command over another disk.
    pub fn make_over<D: Disk>(&mut self, line: &str, input: &[u8], disk: &mut D) {
        self.last = tell(
            self.alloc,
            line,
            input,
            NONE_FAILS,
            disk,
            &mut self.providers,
        );
    }

    /// What a schedule writes, where it is told to its end.
    pub fn replayed(&mut self, schedule: &[u8]) -> Option<&[u8]> {
        self.make("replay", schedule, NONE_FAILS);
        match &self.last {
            Some(told) if told.status() == 0 => Some(told.text()),
            _ => None,
        }
    }

    /// Makes a command, and makes it again where it finds no memory; answers whether it did.
    fn make_again(&mut self, line: &str, input: &[u8]) -> bool {
        self.make(line, input, NONE_FAILS);
        let again = match &self.last {
            Some(told) => told.status() == 70,
            None => true,
        };
        if again {
            self.make(line, input, NONE_FAILS);
        }
        again
    }

    /// Whether a command ends with 0, and writes this where that is looked at; or finds no memory, and then
    /// ends so, or with a status.
    pub fn ends_again(
        &mut self,
        line: &str,
        input: &[u8],
        text: Option<&[u8]>,
        status: u8,
    ) -> bool {
        let again = self.make_again(line, input);
        match &self.last {
            Some(told) => is_well(told, text) || (again && told.status() == status),
            None => false,
        }
    }
}
