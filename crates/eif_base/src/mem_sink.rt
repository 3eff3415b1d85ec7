ghost use Rattle.std.specs.Prelude.{◌≡◌, ◌≢◌, ℕ, ◌+◌, ◌≤◌, List, [], ◌++◌, take, length, Option, Some, None, Ok, IsErr, IfOk, OnOk, OnErr, nat_eq, if◌then◌else◌, vec_capacity};
ghost use Rattle.eif_base.specs.Causes.{HasRisen, next_count};
ghost use Rattle.eif_base.specs.Writes.{Writes, WritesFront};

use crate::memory::Memory;
use crate::sink::{Sink, WriteFail};
use std::alloc::Global;
use std::collections::BTreeMap;

/// A sink in memory, in a buffer that is reserved when the sink is made. A write past that room is a
/// fault, and so is each write whose number was named by `fail`: both write a part of the piece.
/// The pieces that aren't empty are numbered from 1, and numbers stand still at the last of a u64.
#[derive(Debug, Drop)]
pub struct MemSink {
    bytes: Vec<u8>,
    room: usize,
    failing: BTreeMap<u64, usize>,
    writes: u64,
    faults: u64,
    ghost within: { length bytes.items ≤ room },
    ghost reserved: { room ≤ vec_capacity bytes },
}

impl MemSink {
    ghost use Rattle.eif_base.specs.MemSink as mem;

    /// An empty sink with room for so many bytes, which fails no write within it.
    pub fn new(alloc: Global, room: usize) -> Result<MemSink, Memory>
        ensures written { IfOk result (λ s. mem.written s ≡ []) }
        ensures room { IfOk result (λ s. mem.room s ≡ room) }
        ensures through { IfOk result (λ s. (number : ℕ) → mem.through s number ≡ None) }
        ensures writes { IfOk result (λ s. mem.writes s ≡ 0) }
        ensures faults { IfOk result (λ s. mem.faults s ≡ 0) }
    {
        Ok(MemSink {
            bytes: Vec::with_capacity(alloc, room)?,
            room,
            failing: BTreeMap::new(alloc),
            writes: 0,
            faults: 0,
        })
    }

    /// Lets the write with that number, from 1, fail after so many of its bytes as the least of
    /// `through`, its length and the room that is left then.
    pub fn fail(&mut self, number: u64, through: usize) -> Result<(), Memory>
        requires { mem.through self.old number ≡ None }
        ensures ok { OnOk result ((n : ℕ) → mem.through self.new n ≡ (if nat_eq n number then Some through else mem.through self.old n)) }
        ensures err { OnErr result (mem.through self.new ≡ mem.through self.old) }
        ensures written { mem.written self.new ≡ mem.written self.old }
        ensures room { mem.room self.new ≡ mem.room self.old }
        ensures writes { mem.writes self.new ≡ mem.writes self.old }
        ensures faults { mem.faults self.new ≡ mem.faults self.old }
    {
        self.failing.insert(number, through)?;
        Ok(())
    }

    /// What was written.
    pub fn written(&self) -> &[u8]
        ensures { result.now ≡ mem.written self.now }
    {
        &self.bytes
    }
}

impl Sink for MemSink {
    ghost use Rattle.eif_base.specs.MemSink as mem;

    ghost written = { λ s. Some (mem.written s) };

    ghost faults = { mem.faults };

    fn write(&mut self, bytes: &[u8]) -> Result<(), WriteFail>
        // As every sink.
        ensures ok { OnOk result (Writes (Some (mem.written self.old)) (Some (mem.written self.new)) bytes.now) }
        ensures ok_faults { OnOk result (mem.faults self.new ≡ mem.faults self.old) }
        ensures failed { OnErr result (HasRisen (mem.faults self.old) (mem.faults self.new)) }
        ensures front { OnErr result (WritesFront (Some (mem.written self.old)) (Some (mem.written self.new)) bytes.now) }
        ensures never_falls { mem.faults self.old ≤ mem.faults self.new }
        ensures empty { bytes.now ≡ [] → result ≡ Ok tt }
        ensures empty_keeps { bytes.now ≡ [] → self.new ≡ self.old }

        // What a write of a piece that isn't empty does, exactly.
        ensures appends { mem.written self.new ≡ mem.written self.old ++ take (mem.taken self.old (length bytes.now)) bytes.now }
        ensures fails { bytes.now ≢ [] → mem.NextFails self.old (length bytes.now) → IsErr result }
        ensures counted { OnErr result (mem.faults self.new ≡ next_count (mem.faults self.old)) }
        ensures only_then { OnErr result (mem.NextFails self.old (length bytes.now)) }
        ensures writes { bytes.now ≢ [] → mem.writes self.new ≡ mem.next_write self.old }
        ensures through { mem.through self.new ≡ mem.through self.old }
        ensures room { mem.room self.new ≡ mem.room self.old }
    {
        if bytes.is_empty() {
            return Ok(());
        }
        self.writes = self.writes.saturating_add(1);
        let room = self.room - self.bytes.len();
        let named = self.failing.get(&self.writes).copied();
        let through = named.unwrap_or(bytes.len());
        let taken = through.min(bytes.len()).min(room);
        self.bytes.extend_from_slice(&bytes[..taken]).unwrap();
        if named.is_some() || room < bytes.len() {
            self.faults = self.faults.saturating_add(1);
            return Err(WriteFail::Failed);
        }
        Ok(())
    }
}
