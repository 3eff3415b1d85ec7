ghost use Rattle.std.specs.Prelude.{◌≡◌, ℕ, List, Option, ◌≤◌, OnOk, OnErr, IfOk};
ghost use Rattle.eif_base.specs.Causes.{HasRisen};
ghost use Rattle.eif_base.specs.Reads.{Read, AddsRead, ReadsInto, ended_by};

use std::alloc::Global;
use std::io::{self, ErrorKind};

/// How a read ended, for a list of reads.
#[derive(Clone, Copy, Debug, PartialEq, Eq)]
pub enum Ended {
    Whole,
    TooLong,
    Failed,
}

/// How a read that succeeded ended.
#[derive(Clone, Copy, Debug, PartialEq, Eq)]
pub enum ReadEnd {
    /// All bytes of the name were appended.
    Whole,
    /// The name holds more bytes than were asked for at the most.
    TooLong,
}

impl ReadEnd {
    /// The same, as lists of reads have it.
    pub fn ended(self) -> Ended
        ensures { result ≡ ended_by self }
    {
        match self {
            ReadEnd::Whole => Ended::Whole,
            ReadEnd::TooLong => Ended::TooLong,
        }
    }
}

/// Why a read did not succeed.
#[derive(Clone, Copy, Debug, PartialEq, Eq)]
pub enum ReadFail {
    /// The source failed, and counted that.
    Failed,
    Memory,
}

impl From<io::Error> for ReadFail {
    ghost use Rattle.std.specs.Prelude.{◌≡◌};
    ghost use Rattle.std.specs.IoError.{error_kind};
    ghost use Rattle.eif_base.specs.Reads.{fail_of};

    ghost from_gives = { λ error fail. fail ≡ fail_of (error_kind error) };

    /// An error of the system is a failure, save one for want of memory.
    fn from(error: io::Error) -> ReadFail {
        match error.kind() {
            ErrorKind::OutOfMemory => ReadFail::Memory,
            _ => ReadFail::Failed,
        }
    }
}

/// A source of texts by name.
pub trait Texts {
    /// What each name holds, where that is told.
    ghost holds: { Self → List ℕ → Option (List ℕ) };

    /// The reads that were made, in order.
    ghost reads: { Self → List Read };

    /// How often the source failed, up to the last number that a u64 has.
    ghost faults: { Self → ℕ };

    /// Appends the bytes of the name, of which there may be `most`.
    fn read(
        &mut self,
        alloc: Global,
        name: &str,
        most: u64,
        into: &mut Vec<u8>,
    ) -> Result<ReadEnd, ReadFail>
        ensures ok { IfOk result (ReadsInto (holds self.old name.now) most into.old.items into.new.items) }
        ensures ok_read { IfOk result (λ end. AddsRead (reads self.old) (reads self.new) name.now (ended_by end)) }
        ensures ok_faults { OnOk result (faults self.new ≡ faults self.old) }
        ensures failed { result ≡ Err ReadFail.Failed → HasRisen (faults self.old) (faults self.new) }
        ensures failed_read { result ≡ Err ReadFail.Failed → AddsRead (reads self.old) (reads self.new) name.now Ended.Failed }
        ensures memory_read { result ≡ Err ReadFail.Memory → reads self.new ≡ reads self.old }
        ensures memory_faults { result ≡ Err ReadFail.Memory → faults self.new ≡ faults self.old }
        ensures err { OnErr result (into.new.items ≡ into.old.items) }
        ensures kept { holds self.new ≡ holds self.old }
        ensures never_falls { faults self.old ≤ faults self.new };
}
