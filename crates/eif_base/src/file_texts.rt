ghost use Rattle.std.specs.Prelude.{◌≡◌, ℕ, [], None, Err, OnOk, OnErr, IfOk, ◌≤◌};
ghost use Rattle.eif_base.specs.Causes.{HasRisen, next_count};
ghost use Rattle.eif_base.specs.Reads.{AddsRead, ReadsInto, ended_by};

use crate::read_log::ReadLog;
use crate::streams::read_opened;
use crate::texts::{Ended, ReadEnd, ReadFail, Texts};
use std::alloc::Global;
use std::fs;
use std::rt::Files;

/// The files of the system as a source of texts: a name is a path. Each read that the system
/// refuses or breaks off is a fault, save one for want of memory.
#[derive(Drop)]
pub struct FileTexts<R> {
    rt: R,
    log: ReadLog,
    faults: u64,
}

impl<R: Files> FileTexts<R> {
    ghost use Rattle.eif_base.specs.FileTexts as file;

    /// A source that has made no read yet. `alloc` is for the list of its reads.
    pub fn new(rt: R, alloc: Global) -> FileTexts<R>
        ensures no_reads { file.reads result ≡ [] }
        ensures no_faults { file.faults result ≡ 0 }
    {
        FileTexts {
            rt,
            log: ReadLog::new(alloc),
            faults: 0,
        }
    }
}

impl<R: Files> Texts for FileTexts<R> {
    ghost use Rattle.eif_base.specs.FileTexts as file;

    ghost holds = { λ _ _. None };

    ghost reads = { file.reads };

    ghost faults = { file.faults };

    fn read(
        &mut self,
        alloc: Global,
        name: &str,
        most: u64,
        into: &mut Vec<u8>,
    ) -> Result<ReadEnd, ReadFail>
        // As every source, where nothing is told of what a name holds.
        ensures ok { IfOk result (ReadsInto None most into.old.items into.new.items) }
        ensures ok_read { IfOk result (λ end. AddsRead (file.reads self.old) (file.reads self.new) name.now (ended_by end)) }
        ensures ok_faults { OnOk result (file.faults self.new ≡ file.faults self.old) }
        ensures failed { result ≡ Err ReadFail.Failed → HasRisen (file.faults self.old) (file.faults self.new) }
        ensures failed_read { result ≡ Err ReadFail.Failed → AddsRead (file.reads self.old) (file.reads self.new) name.now Ended.Failed }
        ensures memory_read { result ≡ Err ReadFail.Memory → file.reads self.new ≡ file.reads self.old }
        ensures memory_faults { result ≡ Err ReadFail.Memory → file.faults self.new ≡ file.faults self.old }
        ensures err { OnErr result (into.new.items ≡ into.old.items) }
        ensures never_falls { file.faults self.old ≤ file.faults self.new }

        // A fault counts one.
        ensures counted { result ≡ Err ReadFail.Failed → file.faults self.new ≡ next_count (file.faults self.old) }
    {
        let before = into.len();
        match read_opened(fs::open(&self.rt, name), most, into) {
            Ok(end) => {
                if self.log.push(alloc, name, end.ended()).is_err() {
                    into.truncate(before);
                    return Err(ReadFail::Memory);
                }
                Ok(end)
            }
            Err(ReadFail::Memory) => Err(ReadFail::Memory),
            Err(ReadFail::Failed) => {
                if self.log.push(alloc, name, Ended::Failed).is_err() {
                    return Err(ReadFail::Memory);
                }
                self.faults = self.faults.saturating_add(1);
                Err(ReadFail::Failed)
            }
        }
    }
}
