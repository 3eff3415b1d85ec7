ghost use Rattle.std.specs.Prelude.{◌≡◌, [], ◌<◌, ◌^◌, length, OnOk, OnErr};
ghost use Rattle.eif_base.specs.Reads.{AddsRead};

use crate::memory::Memory;
use crate::texts::Ended;
use std::alloc::Global;
use std::marker::Model;

#[derive(Debug, Drop)]
struct Row {
    name: String,
    end: Ended,
}

/// The reads that a source has made, in order.
#[derive(Debug, Drop)]
pub(crate) struct ReadLog {
    rows: Vec<Row>,
}

impl Model for ReadLog {
    ghost use Rattle.std.specs.Prelude.{List, map};
    ghost use Rattle.std.specs.String.{string_bytes};
    ghost use Rattle.eif_base.specs.Reads.{Read};

    ghost Value = { List Read };

    ghost view = { λ l. map (λ r. record { name = string_bytes r.name; end = r.end }) l.rows.items };
}

impl ReadLog {
    /// No read.
    pub(crate) fn new(alloc: Global) -> ReadLog
        ensures { result ≡ [] }
    {
        ReadLog {
            rows: Vec::new(alloc),
        }
    }

    /// How many reads were made.
    pub(crate) fn count(&self) -> usize
        ensures count { result ≡ length self.now }
        ensures small { result < 2 ^ 63 }
    {
        self.rows.len()
    }

    /// Adds a read at the end.
    pub(crate) fn push(&mut self, alloc: Global, name: &str, end: Ended) -> Result<(), Memory>
        ensures ok { OnOk result (AddsRead self.old self.new name.now end) }
        ensures err { OnErr result (self.new ≡ self.old) }
    {
        let name = String::from_str(alloc, name)?;
        self.rows.push(Row { name, end })?;
        Ok(())
    }
}
