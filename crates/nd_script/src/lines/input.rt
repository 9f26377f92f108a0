//! `ScriptReader`: reads the lines of a script from a reader.

ghost use Rattle.std.specs.Prelude.{◌≡◌, ℕ, List, Option, OnOk, OnErr};
ghost use Rattle.std.specs.Io.{ReadsAtMost};
ghost use Rattle.std.specs.Io.KnownBytes.{ReadConsumes};
ghost use Rattle.nd_script.specs.Lines.Ends.{counted_on, ReaderState};

use std::io;
use std::io::Read;
use std::marker::Model;

/// A reader that counts its reads, and those that failed.
pub trait CountedRead {
    /// The bytes that reads will give, where they are known.
    ghost remaining: { Self → Option (List ℕ) };

    /// The number of reads.
    ghost reads: { Self → ℕ };

    /// The number of reads that failed.
    ghost failures: { Self → ℕ };

    /// Reads some bytes. It reads none only at the end or where the buffer has no room.
    fn read_counted(&mut self, buffer: &mut [u8]) -> io::Result<usize>
        ensures bound { ReadsAtMost result buffer.new }
        ensures bytes { ReadConsumes (remaining self.old) (remaining self.new) result buffer.new }
        ensures turn { reads self.new ≡ counted_on (reads self.old) 1 }
        ensures kept { OnOk result (failures self.new ≡ failures self.old) }
        ensures failed { OnErr result (failures self.new ≡ counted_on (failures self.old) 1) };
}

/// Counts the reads of any reader, which says itself which of them failed.
#[derive(Drop)]
pub struct ScriptReader<R> {
    reader: R,
    reads: u64,
    failures: u64,
}

impl<R> Model for ScriptReader<R> {
    ghost Value = { ReaderState R };

    ghost view = { λ s. record { reader = s.reader; reads = s.reads; failures = s.failures } };
}

impl<R> ScriptReader<R> {
    /// Returns a reader of which nothing is read yet.
    pub fn new(reader: R) -> ScriptReader<R>
        ensures { result ≡ record { reader = reader; reads = 0; failures = 0 } }
    {
        ScriptReader {
            reader,
            reads: 0,
            failures: 0,
        }
    }
}

impl<R: Read> CountedRead for ScriptReader<R> {
    ghost remaining = { λ s. R.remaining s.reader };

    ghost reads = { λ s. s.reads };

    ghost failures = { λ s. s.failures };

    fn read_counted(&mut self, buffer: &mut [u8]) -> io::Result<usize> {
        self.reads = self.reads.saturating_add(1);
        let result = self.reader.read(buffer);
        if result.is_err() {
            self.failures = self.failures.saturating_add(1);
        }
        result
    }
}
