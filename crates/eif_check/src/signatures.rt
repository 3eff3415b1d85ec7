//! The phase of signatures: the given classes are judged, divided among workers.

ghost use Rattle.std.specs.Prelude.{◌≡◌, ◌≤◌, ◌<◌, ◌+◌, flat_map, length, IfOk};
ghost use Rattle.eif_base.specs.Appends.{Has};
ghost use Rattle.eif_feature_rules.specs.FeaturePhases.{SignaturesBroken};
ghost use Rattle.eif_rows.specs.Systems.{IsSystem};
ghost use Rattle.eif_system.specs.Kernel.{kernel_count};
ghost use Rattle.eif_universe.specs.Universes.{classes_of, given_in};
ghost use Rattle.eif_check.specs.GivenSignatures.{AreDerived, signatures_between};

use eif_base::limits::MOST_WORKERS;
use eif_base::{ClassId, FaultList, Gate, Memory, Root};
use eif_par::{PieceWork, in_pieces};
use eif_redecl::check_redeclarations;
use eif_tables::Tables;
use eif_types::Types;
use eif_universe::{KERNEL_COUNT, Universe};
use std::alloc::Global;
use std::thread::Threads;

/// The judging of the given classes of a universe by the rules of signatures.
#[derive(Drop)]
pub(crate) struct Redeclarations<'u> {
    pub universe: &'u Universe,
    pub tables: &'u Tables,
    pub types: &'u Types,
    pub root: &'u Root,
}

impl PieceWork for Redeclarations<'_> {
    type Out = FaultList;

    ghost items = { λ w. length (given_in (classes_of w.universe.now)) };

    ghost needs = { λ w. AreDerived w };

    ghost gives = { λ w first past out. out
        ≡ signatures_between (classes_of w.universe.now) w.root.now first past };

    fn run(&self, alloc: Global, first: u32, past: u32) -> Result<FaultList, Memory> {
        let mut faults = FaultList::new(alloc);
        'classes: for number in first..past {
            let class = given_class(self.universe, number);
            check_redeclarations(
                alloc,
                class,
                self.root,
                self.universe,
                self.tables,
                self.types,
                &mut faults,
            )?;
        }
        Ok(faults)
    }
}

/// The given class with that number among the given ones.
fn given_class(u: &Universe, number: u32) -> ClassId
    requires system { IsSystem (classes_of u.now) }
    requires within { number < length (given_in (classes_of u.now)) }
    ensures { result.0 ≡ kernel_count + number }
{
    let count = u.class_count();
    prove!(KERNEL_COUNT <= count && number < count - KERNEL_COUNT);
    ClassId(KERNEL_COUNT + number)
}

/// How many classes of the universe are given.
fn given_count(u: &Universe) -> u32
    requires { IsSystem (classes_of u.now) }
    ensures { result ≡ length (given_in (classes_of u.now)) }
{
    u.class_count() - KERNEL_COUNT
}

/// The faults of all pieces, one piece after another.
fn joined(alloc: Global, pieces: Vec<FaultList>) -> Result<FaultList, Memory>
    ensures { IfOk result (λ l. l ≡ flat_map (λ q. q) pieces.items) }
{
    let mut faults = FaultList::new(alloc);
    'pieces: for piece in pieces {
        faults.merge(&piece)?;
    }
    Ok(faults)
}

/// The breaches of the rules of signatures by the given classes, found on so many workers.
pub(crate) fn signatures_faults<R: Threads + Sync, G: Gate + Sync>(
    rt: &R,
    alloc: Global,
    work: &Redeclarations<'_>,
    workers: u32,
    gate: &G,
) -> Result<FaultList, Memory>
    requires workers { (1 ≤ workers) × (workers ≤ MOST_WORKERS) }
    requires derived { AreDerived work.now }
    ensures { IfOk result (λ l. Has l (SignaturesBroken
        (given_in (classes_of work.now.universe.now)) work.now.root.now)) }
{
    let count = given_count(work.universe);
    let pieces = in_pieces(rt, alloc, workers, count, gate, work)?;
    joined(alloc, pieces)
}
