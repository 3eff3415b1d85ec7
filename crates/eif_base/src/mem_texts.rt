ghost use Rattle.std.specs.Prelude.{◌≡◌, ℕ, ◌+◌, ◌≤◌, List, [], length, Some, None, Ok, Err, IsNone, IsTrue, IsErr, OnOk, OnErr, IfOk, ◌||◌, nat_eq, false, if◌then◌else◌, bytes_eq};
ghost use Rattle.eif_base.specs.Causes.{HasRisen, next_count};
ghost use Rattle.eif_base.specs.Reads.{Read, AddsRead, ReadsInto, ended_by};
ghost use Rattle.eif_base.specs.MemTexts as mem;

use crate::memory::Memory;
use crate::read_log::ReadLog;
use crate::text_map::{TextMap, append_text, put_text};
use crate::texts::{Ended, ReadEnd, ReadFail, Texts};
use std::alloc::Global;
use std::collections::{BTreeMap, BTreeSet};

/// Texts in memory as a source. A name that was never put is a fault, and so is each read whose
/// number was named by `fail`. The number of a read is one more than the count of the reads before
/// it that did not end for want of memory.
#[derive(Debug, Drop)]
pub struct MemTexts {
    alloc: Global,
    texts: TextMap,
    failing: BTreeSet<u64>,
    log: ReadLog,
    faults: u64,
}

impl MemTexts {
    /// A source that holds no name and fails no read.
    pub fn new(alloc: Global) -> MemTexts
        ensures holds { (name : List ℕ) → mem.holds result name ≡ None }
        ensures fails { (number : ℕ) → mem.fails result number ≡ false }
        ensures reads { mem.reads result ≡ [] }
        ensures faults { mem.faults result ≡ 0 }
    {
        MemTexts {
            alloc,
            texts: BTreeMap::new(alloc),
            failing: BTreeSet::new(alloc),
            log: ReadLog::new(alloc),
            faults: 0,
        }
    }

    /// Lets the name hold exactly the text.
    pub fn put(&mut self, name: &str, text: Vec<u8>) -> Result<(), Memory>
        ensures ok { OnOk result ((q : List ℕ) → mem.holds self.new q ≡ (if bytes_eq q name.now then Some text.items else mem.holds self.old q)) }
        ensures err { OnErr result (mem.holds self.new ≡ mem.holds self.old) }
        ensures fails { mem.fails self.new ≡ mem.fails self.old }
        ensures reads { mem.reads self.new ≡ mem.reads self.old }
        ensures faults { mem.faults self.new ≡ mem.faults self.old }
    {
        put_text(&mut self.texts, self.alloc, name, text)
    }

    /// Lets the read with that number fail, from 1.
    pub fn fail(&mut self, number: u64) -> Result<(), Memory>
        ensures ok { OnOk result ((n : ℕ) → mem.fails self.new n ≡ (nat_eq n number || mem.fails self.old n)) }
        ensures err { OnErr result (mem.fails self.new ≡ mem.fails self.old) }
        ensures holds { mem.holds self.new ≡ mem.holds self.old }
        ensures reads { mem.reads self.new ≡ mem.reads self.old }
        ensures faults { mem.faults self.new ≡ mem.faults self.old }
    {
        self.failing.insert(number)?;
        Ok(())
    }

    /// Reads the name, and notes nothing of it.
    fn look_up(&self, name: &str, most: u64, into: &mut Vec<u8>) -> Result<ReadEnd, ReadFail>
        ensures ok { IfOk result (ReadsInto (mem.holds self.now name.now) most into.old.items into.new.items) }
        ensures err { OnErr result (into.new.items ≡ into.old.items) }
        ensures failed { result ≡ Err ReadFail.Failed → mem.NextFails self.now name.now }
        ensures fails { mem.NextFails self.now name.now → result ≡ Err ReadFail.Failed }
    {
        let number = self.log.count() as u64 + 1;
        if self.failing.contains(&number) {
            return Err(ReadFail::Failed);
        }
        match self.texts.get(name) {
            Some(text) => match append_text(text, most, into) {
                Ok(end) => Ok(end),
                Err(Memory) => Err(ReadFail::Memory),
            },
            None => Err(ReadFail::Failed),
        }
    }
}

impl Texts for MemTexts {
    ghost holds = { mem.holds };

    ghost reads = { mem.reads };

    ghost faults = { mem.faults };

    fn read(
        &mut self,
        alloc: Global,
        name: &str,
        most: u64,
        into: &mut Vec<u8>,
    ) -> Result<ReadEnd, ReadFail>
        // As every source.
        ensures ok { IfOk result (ReadsInto (mem.holds self.old name.now) most into.old.items into.new.items) }
        ensures ok_read { IfOk result (λ end. AddsRead (mem.reads self.old) (mem.reads self.new) name.now (ended_by end)) }
        ensures ok_faults { OnOk result (mem.faults self.new ≡ mem.faults self.old) }
        ensures failed { result ≡ Err ReadFail.Failed → HasRisen (mem.faults self.old) (mem.faults self.new) }
        ensures failed_read { result ≡ Err ReadFail.Failed → AddsRead (mem.reads self.old) (mem.reads self.new) name.now Ended.Failed }
        ensures memory_read { result ≡ Err ReadFail.Memory → mem.reads self.new ≡ mem.reads self.old }
        ensures memory_faults { result ≡ Err ReadFail.Memory → mem.faults self.new ≡ mem.faults self.old }
        ensures err { OnErr result (into.new.items ≡ into.old.items) }
        ensures kept { mem.holds self.new ≡ mem.holds self.old }
        ensures never_falls { mem.faults self.old ≤ mem.faults self.new }

        // It fails exactly where the number was named or the name is absent, unless memory runs out.
        ensures only_then { result ≡ Err ReadFail.Failed → mem.NextFails self.old name.now }
        ensures fails { mem.NextFails self.old name.now → IsErr result }
        ensures counted { result ≡ Err ReadFail.Failed → mem.faults self.new ≡ next_count (mem.faults self.old) }
        ensures fails_kept { mem.fails self.new ≡ mem.fails self.old }
    {
        let before = into.len();
        match self.look_up(name, most, into) {
            Ok(end) => {
                if self.log.push(alloc, name, end.ended()).is_err() {
                    into.truncate(before);
                    return Err(ReadFail::Memory);
                }
                Ok(end)
            }
            Err(ReadFail::Memory) => Err(ReadFail::Memory),
            Err(ReadFail::Failed) => {
                if self.log.push(alloc, name, Ended::Failed).is_err() {
                    return Err(ReadFail::Memory);
                }
                self.faults = self.faults.saturating_add(1);
                Err(ReadFail::Failed)
            }
        }
    }
}
