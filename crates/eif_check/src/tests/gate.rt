ghost use Rattle.std.specs.Prelude.{◌≡◌, ◌<◌, IfOk, vec_len};

use eif_base::{Gate, Memory};
use std::alloc::Global;
use std::sync::atomic::{AtomicU64, Ordering};

/// How many turns a pass waits for the other pieces.
const MOST_TURNS: u32 = 10_000_000;

/// What the passes of one piece were.
#[derive(Drop)]
struct Count {
    passes: AtomicU64,
    meetings: AtomicU64,
}

/// A gate at which each piece waits for a while until all pieces have come as often as it has.
#[derive(Drop)]
pub struct WaitingGate {
    counts: Vec<Count>,
}

impl WaitingGate {
    /// The gate for so many pieces.
    pub fn new(alloc: Global, pieces: u32) -> Result<WaitingGate, Memory> {
        let mut counts = Vec::new(alloc);
        for _ in 0..pieces {
            counts.push(Count {
                passes: AtomicU64::new(0),
                meetings: AtomicU64::new(0),
            })?;
        }
        Ok(WaitingGate { counts })
    }

    /// How often the piece passed.
    pub fn passes(&self, piece: u32) -> u64 {
        match self.counts.get(piece as usize) {
            Some(count) => count.passes.load(Ordering::SeqCst),
            None => 0,
        }
    }

    /// At how many of its passes the piece saw each other piece pass as often.
    pub fn meetings(&self, piece: u32) -> u64 {
        match self.counts.get(piece as usize) {
            Some(count) => count.meetings.load(Ordering::SeqCst),
            None => 0,
        }
    }

    fn all_have(&self, passes: u64) -> bool {
        self.counts
            .iter()
            .all(|count| passes <= count.passes.load(Ordering::SeqCst))
    }
}

impl Gate for WaitingGate {
    fn pass(&self, piece: u32) {
        let Some(count) = self.counts.get(piece as usize) else {
            return;
        };
        let before = count.passes.fetch_add(1, Ordering::SeqCst);
        let passes = before.saturating_add(1);
        for _ in 0..MOST_TURNS {
            if self.all_have(passes) {
                count.meetings.fetch_add(1, Ordering::SeqCst);
                return;
            }
        }
    }
}
