ghost use Rattle.std.specs.Prelude.{◌≡◌, ◌+◌, ◌%◌, ◌^◌, [], None, Ok, length, sum};
ghost use Rattle.eif_base.specs.SureSink as sure;

use crate::sink::{Sink, WriteFail};

/// A sink that keeps the number of bytes and their sum, both modulo 2^64, and never fails.
#[derive(Clone, Copy, Debug)]
pub struct SureSink {
    count: u64,
    sum: u64,
}

impl SureSink {
    /// A sink to which no byte was written.
    pub fn new() -> SureSink
        ensures count { sure.count result ≡ 0 }
        ensures sum { sure.total result ≡ 0 }
    {
        SureSink { count: 0, sum: 0 }
    }

    /// How many bytes were written, modulo 2^64.
    pub fn count(&self) -> u64
        ensures { result ≡ sure.count self.now }
    {
        self.count
    }

    /// The sum of the bytes that were written, modulo 2^64.
    pub fn sum(&self) -> u64
        ensures { result ≡ sure.total self.now }
    {
        self.sum
    }
}

impl Sink for SureSink {
    ghost written = { λ _. None };

    ghost faults = { λ _. 0 };

    fn write(&mut self, bytes: &[u8]) -> Result<(), WriteFail>
        ensures ok { result ≡ Ok tt }
        ensures empty_keeps { bytes.now ≡ [] → self.new ≡ self.old }
        ensures count { sure.count self.new ≡ (sure.count self.old + length bytes.now) % 2 ^ 64 }
        ensures sum { sure.total self.new ≡ (sure.total self.old + sum bytes.now) % 2 ^ 64 }
    {
        self.count = self.count.wrapping_add(bytes.len() as u64);
        self.sum = add_all(self.sum, bytes);
        Ok(())
    }
}

/// The number and all bytes, added modulo 2^64.
fn add_all(start: u64, bytes: &[u8]) -> u64
    ensures { result ≡ (start + sum bytes.now) % 2 ^ 64 }
{
    let mut total = start;
    'bytes: for &byte in bytes {
        total = total.wrapping_add(u64::from(byte));
    }
    total
}
