ghost use Rattle.std.specs.Prelude.{◌≡◌, ℕ, ◌+◌, ◌*◌, ◌/◌, ◌<◌, ◌≤◌, min, map, Ok, IfOk, IfSome, vec_len, slice_get};
ghost use Rattle.eif_par.specs.Pieces.{piece_start, GivesPiece, ArePieces};

use crate::piece_work::PieceWork;
use eif_base::limits::MOST_WORKERS;
use eif_base::{Gate, Memory};
use std::alloc::{AllocError, Global};
use std::thread;
use std::thread::Threads;

/// Where a piece begins, or, at the number of pieces, where the last one ends.
fn start_of(count: u32, pieces: u32, piece: u32) -> u32
    requires some { 0 < pieces }
    requires below { piece ≤ pieces }
    ensures value { result ≡ piece_start count pieces piece }
    ensures within { result ≤ count }
{
    (u64::from(piece) * u64::from(count) / u64::from(pieces)) as u32
}

/// Passes the gate, and does one piece.
fn run_piece<G: Gate, W: PieceWork>(
    alloc: Global,
    count: u32,
    pieces: u32,
    piece: u32,
    gate: &G,
    work: &W,
) -> Result<W::Out, Memory>
    requires some { piece < pieces }
    requires within { count ≤ W.items work.now }
    requires needs { W.needs work.now }
    ensures { IfOk result (GivesPiece (W.gives work.now) count pieces piece) }
{
    gate.pass(piece);
    let first = start_of(count, pieces, piece);
    let past = start_of(count, pieces, piece + 1);
    work.run(alloc, first, past)
}

/// What each piece gave, in order.
fn results_of<R: Threads + Sync, G: Gate + Sync, W: PieceWork + Sync>(
    rt: &R,
    alloc: Global,
    pieces: u32,
    count: u32,
    gate: &G,
    work: &W,
) -> Result<Vec<Result<W::Out, Memory>>, AllocError>
    requires within { count ≤ W.items work.now }
    requires needs { W.needs work.now }
    ensures count { IfOk result (λ v. vec_len v ≡ pieces) }
    ensures each { let Given = GivesPiece (W.gives work.now) count pieces in
        IfOk result (λ v. (k : ℕ) → k < pieces →
        IfSome (slice_get v.items k) (λ r. IfOk r (Given k))) }
{
    thread::map_indices(
        rt,
        alloc,
        pieces as usize,
        &|k: usize| -> Result<W::Out, Memory>
            requires { (k < pieces) × (count ≤ W.items work.now) × W.needs work.now }
            ensures { IfOk result (GivesPiece (W.gives work.entry.now) count pieces k) }
        { run_piece(alloc, count, pieces, k as u32, gate, work) },
    )
}

/// The values of results, in order, if each has one.
fn all_ok<T: Drop>(alloc: Global, results: Vec<Result<T, Memory>>) -> Result<Vec<T>, Memory>
    ensures { IfOk result (λ v. map Ok v.items ≡ results.items) }
{
    let mut values = Vec::new(alloc);
    for result in results {
        values.push(result?)?;
    }
    Ok(values)
}

/// Divides the items among as many pieces as there are workers, or items if those are fewer, and
/// does each piece in a thread of its own where one can be made. Gives one result for each piece,
/// in the order of the pieces. Each piece passes the gate with its number before it begins.
pub fn in_pieces<R: Threads + Sync, G: Gate + Sync, W: PieceWork + Sync>(
    rt: &R,
    alloc: Global,
    workers: u32,
    count: u32,
    gate: &G,
    work: &W,
) -> Result<Vec<W::Out>, Memory>
    requires workers { (1 ≤ workers) × (workers ≤ MOST_WORKERS) }
    requires within { count ≤ W.items work.now }
    requires needs { W.needs work.now }
    ensures { IfOk result (λ v. ArePieces (W.gives work.now) count (min workers count) v.items) }
{
    let pieces = workers.min(count);
    let results = results_of(rt, alloc, pieces, count, gate, work)?;
    all_ok(alloc, results)
}
