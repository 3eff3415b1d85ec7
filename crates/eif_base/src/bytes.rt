ghost use Rattle.std.specs.Prelude.{◌≡◌, IfOk};

use crate::memory::Memory;
use std::alloc::Global;
use std::marker::Model;

/// A list of bytes.
#[derive(Debug, Drop)]
pub struct Bytes {
    bytes: Vec<u8>,
}

impl Model for Bytes {
    ghost use Rattle.std.specs.Prelude.{List, ℕ};
    ghost use Rattle.std.specs.Coded.{coded_list, coded_ℕ};

    ghost Value = { List ℕ };

    ghost coded = { coded_list coded_ℕ };

    ghost view = { λ b. b.bytes.items };
}

impl Bytes {
    /// Exactly these bytes.
    pub fn from_slice(alloc: Global, text: &[u8]) -> Result<Bytes, Memory>
        ensures { IfOk result (λ b. b ≡ text.now) }
    {
        Ok(Bytes {
            bytes: Vec::from_slice(alloc, text)?,
        })
    }

    /// The bytes, from first to last.
    pub fn as_slice(&self) -> &[u8]
        ensures { result.now ≡ self.now }
    {
        &self.bytes
    }
}
