ghost use Rattle.std.specs.Prelude.{◌≡◌, ℕ, List, [], Option, Ok, ◌≤◌, OnOk, OnErr};
ghost use Rattle.eif_base.specs.Causes.{HasRisen};
ghost use Rattle.eif_base.specs.Writes.{Writes, WritesFront};

/// Why a write did not succeed.
#[derive(Clone, Copy, Debug, PartialEq, Eq)]
pub enum WriteFail {
    /// The sink failed, and counted that.
    Failed,
}

/// What takes the report. A write takes no memory.
pub trait Sink {
    /// What was written, where that is told.
    ghost written: { Self → Option (List ℕ) };

    /// How often the sink failed, up to the last number that a u64 has.
    ghost faults: { Self → ℕ };

    /// Writes the bytes after those that were written before.
    fn write(&mut self, bytes: &[u8]) -> Result<(), WriteFail>
        ensures ok { OnOk result (Writes (written self.old) (written self.new) bytes.now) }
        ensures ok_faults { OnOk result (faults self.new ≡ faults self.old) }
        ensures failed { OnErr result (HasRisen (faults self.old) (faults self.new)) }
        ensures front { OnErr result (WritesFront (written self.old) (written self.new) bytes.now) }
        ensures never_falls { faults self.old ≤ faults self.new }
        ensures empty { bytes.now ≡ [] → result ≡ Ok tt }
        ensures empty_keeps { bytes.now ≡ [] → self.new ≡ self.old };
}
