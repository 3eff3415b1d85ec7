ghost use Rattle.std.specs.Prelude.{◌≡◌, ◌≤◌, [], length, None, Ok, OnOk, OnErr};
ghost use Rattle.std.specs.Io.KnownBytes.{Appends};
ghost use Rattle.eif_base.specs.Causes.{HasRisen, next_count};
ghost use Rattle.eif_base.specs.Writes.{AppendsFront};

use crate::sink::{Sink, WriteFail};
use std::io::Write;

/// A writer as a sink, as the standard output is one by `std::io::writer`. Each write that the
/// writer refuses or breaks off is a fault, and so is one that a signal interrupts: no write is
/// tried again.
#[derive(Drop)]
pub struct OutSink<W> {
    out: W,
    faults: u64,
}

impl<W: Write> OutSink<W> {
    ghost use Rattle.eif_base.specs.OutSink as sink;

    /// A sink that has not failed yet.
    pub fn new(out: W) -> OutSink<W>
        ensures out { sink.out result ≡ out }
        ensures faults { sink.faults result ≡ 0 }
    {
        OutSink { out, faults: 0 }
    }
}

impl<W: Write> Sink for OutSink<W> {
    ghost use Rattle.eif_base.specs.OutSink as sink;

    ghost written = { λ _. None };

    ghost faults = { sink.faults };

    fn write(&mut self, bytes: &[u8]) -> Result<(), WriteFail>
        // As every sink that tells nothing of what was written.
        ensures ok_faults { OnOk result (sink.faults self.new ≡ sink.faults self.old) }
        ensures failed { OnErr result (HasRisen (sink.faults self.old) (sink.faults self.new)) }
        ensures never_falls { sink.faults self.old ≤ sink.faults self.new }
        ensures empty { bytes.now ≡ [] → result ≡ Ok tt }
        ensures empty_keeps { bytes.now ≡ [] → self.new ≡ self.old }

        // What the writer took, where it tells that.
        ensures took { OnOk result (Appends (W.contents (sink.out self.old)) (W.contents (sink.out self.new)) bytes.now) }
        ensures took_front { OnErr result (AppendsFront (W.contents (sink.out self.old)) (W.contents (sink.out self.new)) bytes.now) }
        ensures counted { OnErr result (sink.faults self.new ≡ next_count (sink.faults self.old)) }
    {
        let written = write_pieces(&mut self.out, bytes);
        if written.is_err() {
            self.faults = self.faults.saturating_add(1);
        }
        written
    }
}

/// Writes all the bytes, in as many pieces as the writer takes them, or a part from their front on.
fn write_pieces<W: Write>(out: &mut W, bytes: &[u8]) -> Result<(), WriteFail>
    ensures ok { OnOk result (Appends (W.contents out.old) (W.contents out.new) bytes.now) }
    ensures front { OnErr result (AppendsFront (W.contents out.old) (W.contents out.new) bytes.now) }
    ensures empty { bytes.now ≡ [] → result ≡ Ok tt }
    ensures empty_keeps { bytes.now ≡ [] → out.new ≡ out.old }
{
    let mut written = 0;
    'pieces: while written < bytes.len() {
        match out.write(&bytes[written..]) {
            Ok(0) | Err(_) => return Err(WriteFail::Failed),
            Ok(count) => written += count,
        }
    }
    Ok(())
}
