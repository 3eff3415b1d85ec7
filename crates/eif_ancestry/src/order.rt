ghost use Rattle.std.specs.Prelude.{◌≡◌, ℕ, ◌<◌, ◌^◌, Some, List, [], length, slice_get, slice_index_or, IfOk};
ghost use Rattle.eif_system.specs.Graph.{IsProperAncestor, IsClosed, HasNoCycle, IsOrder};
ghost use Rattle.eif_ancestry.specs.Ancestries.{number_graph, AreAncestries};

use crate::ancestors::Ancestors;
use eif_base::Memory;
use std::alloc::Global;

// The numbers below the count, rising.
fn numbers_below(alloc: Global, count: usize) -> Result<Vec<u32>, Memory>
    requires { count < 2 ^ 32 }
    ensures len { IfOk result (λ ns. length ns.items ≡ count) }
    ensures each { IfOk result (λ ns. (k : ℕ) → k < count → slice_get ns.items k ≡ Some k) }
{
    let mut numbers = Vec::with_capacity(alloc, count)?;
    for d in 0..count {
        numbers.push(d as u32)?;
    }
    Ok(numbers)
}

// How many ancestors the class has.
fn count_of(rows: &[Ancestors], d: u32) -> usize
    ensures { result ≡ length (slice_index_or rows.now d []) }
{
    match rows.get(d as usize) {
        Some(row) => row.count(),
        None => 0,
    }
}

/// The classes, each once and after its parents.
pub fn inheritance_order(
    alloc: Global,
    graph: &[Vec<u32>],
    rows: &[Ancestors],
) -> Result<Vec<u32>, Memory>
    requires closed { IsClosed (number_graph graph.now) }
    requires few { length graph.now < 2 ^ 32 }
    requires cycle { HasNoCycle (number_graph graph.now) }
    requires rows { AreAncestries (number_graph graph.now) rows.now }
    ensures { IfOk result (λ order. IsOrder (number_graph graph.now) order.items) }
{
    let mut order = numbers_below(alloc, graph.len())?;
    order.sort_by_key(|d| count_of(rows, *d))?;
    Ok(order)
}

/// In an order of classes each proper ancestor of a class stands before it.
pub fn ancestors_first()
    ensures { (g : List (List ℕ)) (order : List ℕ) (i d a : ℕ) → IsOrder g order
        → slice_get order i ≡ Some d → IsProperAncestor g d a
        → (j : ℕ) × (j < i) × (slice_get order j ≡ Some a) }
{}
