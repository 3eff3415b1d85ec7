ghost use Rattle.std.specs.Prelude.{◌≡◌, ℕ, ◌≤◌, List, [], Some, Err, OnOk, OnErr, IfOk, IfErr, if◌then◌else◌, bytes_eq};
ghost use Rattle.eif_base.specs.Causes.{HasRisen};
ghost use Rattle.eif_base.specs.Reads.{Read, AddsRead, ReadsInto, ended_by};
ghost use Rattle.eif_base.specs.SureTexts as sure;

use crate::memory::Memory;
use crate::read_log::ReadLog;
use crate::text_map::{TextMap, append_text, put_text};
use crate::texts::{Ended, ReadEnd, ReadFail, Texts};
use std::alloc::Global;
use std::collections::BTreeMap;

/// Texts in memory as a source that never fails: a name that was never put holds no bytes.
#[derive(Debug, Drop)]
pub struct SureTexts {
    alloc: Global,
    texts: TextMap,
    log: ReadLog,
}

impl SureTexts {
    /// A source in which no name holds bytes.
    pub fn new(alloc: Global) -> SureTexts
        ensures holds { (name : List ℕ) → sure.holds result name ≡ Some [] }
        ensures reads { sure.reads result ≡ [] }
    {
        SureTexts {
            alloc,
            texts: BTreeMap::new(alloc),
            log: ReadLog::new(alloc),
        }
    }

    /// Lets the name hold exactly the text.
    pub fn put(&mut self, name: &str, text: Vec<u8>) -> Result<(), Memory>
        ensures ok { OnOk result ((q : List ℕ) → sure.holds self.new q ≡ (if bytes_eq q name.now then Some text.items else sure.holds self.old q)) }
        ensures err { OnErr result (sure.holds self.new ≡ sure.holds self.old) }
        ensures reads { sure.reads self.new ≡ sure.reads self.old }
    {
        put_text(&mut self.texts, self.alloc, name, text)
    }
}

impl Texts for SureTexts {
    ghost holds = { sure.holds };

    ghost reads = { sure.reads };

    ghost faults = { λ _. 0 };

    fn read(
        &mut self,
        alloc: Global,
        name: &str,
        most: u64,
        into: &mut Vec<u8>,
    ) -> Result<ReadEnd, ReadFail>
        // As every source, where the count of faults is 0.
        ensures ok { IfOk result (ReadsInto (sure.holds self.old name.now) most into.old.items into.new.items) }
        ensures ok_read { IfOk result (λ end. AddsRead (sure.reads self.old) (sure.reads self.new) name.now (ended_by end)) }
        ensures memory_read { result ≡ Err ReadFail.Memory → sure.reads self.new ≡ sure.reads self.old }
        ensures err { OnErr result (into.new.items ≡ into.old.items) }
        ensures kept { sure.holds self.new ≡ sure.holds self.old }

        // It fails for want of memory alone.
        ensures sure { IfErr result (λ why. why ≡ ReadFail.Memory) }
    {
        let before = into.len();
        let appended = match self.texts.get(name) {
            Some(text) => append_text(text, most, into),
            None => append_text(&[], most, into),
        };
        let Ok(end) = appended else {
            return Err(ReadFail::Memory);
        };
        if self.log.push(alloc, name, end.ended()).is_err() {
            into.truncate(before);
            return Err(ReadFail::Memory);
        }
        Ok(end)
    }
}
