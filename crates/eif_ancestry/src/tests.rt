ghost use Rattle.std.specs.Prelude.{◌≡◌, ℕ, ◌<◌, ◌≤◌, true, IsTrue};
ghost use Rattle.eif_system.specs.Graph.{is_member, IsClosed, HasNoCycle};
ghost use Rattle.eif_ancestry.specs.Ancestries.{number_graph};

use crate::{ancestors_of_all, inheritance_order};
use eif_base::Memory;
use std::alloc::Global;
use std::test::Fail;

struct Case {
    name: &'static str,
    parents: &'static [&'static [u32]],
    above: &'static [&'static [u32]],
    order: &'static [u32],
}

const CASES: [Case; 6] = [
    Case {
        name: "a chain",
        parents: &[&[1], &[2], &[]],
        above: &[&[1, 2], &[2], &[]],
        order: &[2, 1, 0],
    },
    Case {
        name: "a diamond",
        parents: &[&[2, 1], &[3], &[3], &[]],
        above: &[&[1, 2, 3], &[3], &[3], &[]],
        order: &[3, 1, 2, 0],
    },
    Case {
        name: "two classes that lead to each other",
        parents: &[&[1], &[0]],
        above: &[&[1], &[0]],
        order: &[],
    },
    Case {
        name: "a class that leads to itself",
        parents: &[&[0]],
        above: &[&[]],
        order: &[],
    },
    Case {
        name: "a class below a cycle",
        parents: &[&[1], &[2], &[1]],
        above: &[&[1, 2], &[2], &[1]],
        order: &[],
    },
    Case {
        name: "doubled edges",
        parents: &[&[2, 1, 2], &[2, 2], &[]],
        above: &[&[1, 2], &[2], &[]],
        order: &[2, 1, 0],
    },
];

fn graph_from(alloc: Global, lists: &[&[u32]]) -> Result<Vec<Vec<u32>>, Memory> {
    let mut graph = Vec::new(alloc);
    for parents in lists {
        graph.push(Vec::from_slice(alloc, parents)?)?;
    }
    Ok(graph)
}

fn all_between(numbers: &[u32], low: usize, high: usize) -> bool
    ensures { IsTrue result → (p : ℕ) → is_member p numbers.now ≡ true → (low ≤ p) × (p < high) }
{
    for n in numbers {
        let number = *n as usize;
        if number < low || high <= number {
            return false;
        }
    }
    true
}

fn leads_to_classes(graph: &[Vec<u32>]) -> bool
    ensures { IsTrue result → IsClosed (number_graph graph.now) }
{
    for d in 0..graph.len() {
        if !all_between(graph[d].as_slice(), 0, graph.len()) {
            return false;
        }
    }
    true
}

fn leads_upwards(graph: &[Vec<u32>]) -> bool
    ensures { IsTrue result → HasNoCycle (number_graph graph.now) }
{
    for d in 0..graph.len() {
        if !all_between(graph[d].as_slice(), d + 1, graph.len()) {
            return false;
        }
    }
    true
}

#[test]
fn small_graphs(rt: HostRuntime) -> Result<(), Fail> {
    let alloc = rt.alloc();
    for case in &CASES {
        let name = case.name;
        let built = graph_from(alloc, case.parents)?;
        let graph = built.as_slice();
        assert!(rt; graph.len() <= 4, "{name}");
        assert!(rt; leads_to_classes(graph), "{name}");
        let rows = ancestors_of_all(alloc, graph)?;
        assert_eq!(rt; rows.len(), case.above.len(), "{name}");
        for (row, above) in rows.iter().zip(case.above) {
            assert_eq!(rt; row.as_slice(), *above, "{name}");
            assert_eq!(rt; row.count(), above.len(), "{name}");
            for a in 0..4 {
                assert_eq!(rt; row.has(a), above.contains(&a), "{name}");
            }
        }
        if leads_upwards(graph) {
            let order = inheritance_order(alloc, graph, rows.as_slice())?;
            assert_eq!(rt; order.as_slice(), case.order, "{name}");
        } else {
            assert!(rt; case.order.is_empty(), "{name}");
        }
    }
    Ok(())
}
