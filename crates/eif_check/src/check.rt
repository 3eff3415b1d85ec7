ghost use Rattle.std.specs.Prelude.{◌≡◌, ◌≤◌, [], List, length, map, IfOk};
ghost use Rattle.eif_base.specs.Appends.{Has};
ghost use Rattle.eif_base.specs.FileLists.{texts_of};
ghost use Rattle.eif_feature_rules.specs.FeaturePhases.{FeaturesBroken};
ghost use Rattle.eif_rules.specs.FaultForms.{IsNone};
ghost use Rattle.eif_rows.specs.Systems.{IsSystem};
ghost use Rattle.eif_system_rules.specs.SystemRules.{BodiesBroken, ClassesBroken, DeclarationsBroken, SystemBroken, TypesBroken};
ghost use Rattle.eif_rules.specs.UniverseRules.{UniverseBroken};
ghost use Rattle.eif_tables.specs.TablesOf.{AreTables};
ghost use Rattle.eif_tree.specs.Tree.{ClassT};
ghost use Rattle.eif_tree.specs.View.{class_view};
ghost use Rattle.eif_universe.specs.Universes.{classes_of, given_in};
ghost use Rattle.eif_check.specs.GivenSignatures.{AreDerived};
ghost use Rattle.eif_check.specs.Limits.{AreShort};
ghost use Rattle.eif_check.specs.Systems.{AreClasses, Broken};
ghost use Rattle.eif_check.specs.Verdicts.{IsVerdict};

use crate::faults::{push_not_yet, push_unknown_names};
use crate::signatures::{Redeclarations, signatures_faults};
use crate::texts::{Parsed, parse_texts};
use eif_base::limits::{MOST_FILES, MOST_WORKERS};
use eif_base::{FaultList, FileList, Gate, Memory, Root};
use eif_report::{Verdict, sort_faults};
use eif_tables::{TableError, Tables};
use eif_tree::ClassTree;
use eif_types::{TypeError, Types};
use eif_universe::{Universe, UniverseError, kernel_trees};
use std::alloc::Global;
use std::thread::Threads;

/// The faults of classes that break no rule up to those of signatures.
fn bodies_faults(alloc: Global, given: &[ClassTree]) -> Result<FaultList, Memory>
    ensures { IfOk result (λ l. Has l (BodiesBroken (map class_view given.now))) }
{
    let mut faults = FaultList::new(alloc);
    push_not_yet(alloc, &mut faults, given)?;
    if !faults.is_empty() {
        return Ok(faults);
    }
    push_unknown_names(alloc, &mut faults, given)?;
    Ok(faults)
}

/// The faults of classes that break no rule up to those of derivations.
fn declarations_faults<R: Threads + Sync, G: Gate + Sync>(
    rt: &R,
    alloc: Global,
    work: &Redeclarations<'_>,
    workers: u32,
    gate: &G,
) -> Result<FaultList, Memory>
    requires workers { (1 ≤ workers) × (workers ≤ MOST_WORKERS) }
    requires derived { AreDerived work.now }
    ensures { IfOk result
        (λ l. Has l (DeclarationsBroken (given_in (classes_of work.now.universe.now))
        work.now.root.now)) }
{
    let faults = signatures_faults(rt, alloc, work, workers, gate)?;
    if !faults.is_empty() {
        return Ok(faults);
    }
    bodies_faults(alloc, work.universe.given())
}

/// The faults of the classes of the universe, which break no rule up to those of features.
fn types_faults<R: Threads + Sync, G: Gate + Sync>(
    rt: &R,
    alloc: Global,
    universe: &Universe,
    tables: &Tables,
    root: &Root,
    workers: u32,
    gate: &G,
) -> Result<FaultList, Memory>
    requires workers { (1 ≤ workers) × (workers ≤ MOST_WORKERS) }
    requires system { IsSystem (classes_of universe.now) }
    requires sound { IsNone (UniverseBroken (given_in (classes_of universe.now)) root.now) }
    requires features { IsNone (FeaturesBroken (given_in (classes_of universe.now))) }
    requires tables { AreTables (classes_of universe.now) tables.now }
    ensures { IfOk result
        (λ l. Has l (TypesBroken (given_in (classes_of universe.now)) root.now)) }
{
    match Types::build(alloc, universe) {
        Ok(types) => {
            let work = Redeclarations {
                universe,
                tables,
                types: &types,
                root,
            };
            declarations_faults(rt, alloc, &work, workers, gate)
        }
        Err(TypeError::Faults(faults)) => Ok(faults),
        Err(TypeError::Memory) => Err(Memory),
    }
}

/// The faults of the classes of the universe, which breaks no rule of its own.
fn classes_faults<R: Threads + Sync, G: Gate + Sync>(
    rt: &R,
    alloc: Global,
    universe: &Universe,
    root: &Root,
    workers: u32,
    gate: &G,
) -> Result<FaultList, Memory>
    requires workers { (1 ≤ workers) × (workers ≤ MOST_WORKERS) }
    requires system { IsSystem (classes_of universe.now) }
    requires sound { IsNone (UniverseBroken (given_in (classes_of universe.now)) root.now) }
    ensures { IfOk result
        (λ l. Has l (ClassesBroken (given_in (classes_of universe.now)) root.now)) }
{
    match Tables::build(alloc, universe) {
        Ok(tables) => types_faults(rt, alloc, universe, &tables, root, workers, gate),
        Err(TableError::Faults(faults)) => Ok(faults),
        Err(TableError::Memory) => Err(Memory),
    }
}

/// The faults of a system of these classes.
fn system_faults<R: Threads + Sync, G: Gate + Sync>(
    rt: &R,
    alloc: Global,
    given: Vec<ClassTree>,
    root: &Root,
    workers: u32,
    gate: &G,
) -> Result<FaultList, Memory>
    requires workers { (1 ≤ workers) × (workers ≤ MOST_WORKERS) }
    requires few { length given.items ≤ MOST_FILES }
    ensures { IfOk result (λ l. Has l (SystemBroken (map class_view given.items) root.now)) }
{
    let kernel = kernel_trees(alloc)?;
    match Universe::build(alloc, kernel, given, root) {
        Ok(universe) => classes_faults(rt, alloc, &universe, root, workers, gate),
        Err(UniverseError::Faults { faults, .. }) => Ok(faults),
        Err(UniverseError::Memory { .. }) => Err(Memory),
    }
}

/// The faults of the system of these files, those of the first phase that has any.
fn faults_of<R: Threads + Sync, G: Gate + Sync>(
    rt: &R,
    alloc: Global,
    files: &FileList,
    root: &Root,
    workers: u32,
    gate: &G,
) -> Result<FaultList, Memory>
    requires workers { (1 ≤ workers) × (workers ≤ MOST_WORKERS) }
    requires few { length files.now ≤ MOST_FILES }
    requires short { AreShort (texts_of files.now) }
    ensures faults { IfOk result (λ l. Has l (Broken (texts_of files.now) root.now)) }
    ensures classes { IfOk result (λ l. l ≡ []
        → (given : List ClassT) × AreClasses (texts_of files.now) given) }
{
    let Parsed { trees, faults } = parse_texts(rt, alloc, files, workers, gate)?;
    if !faults.is_empty() {
        return Ok(faults);
    }
    system_faults(rt, alloc, trees, root, workers, gate)
}

/// The verdict on the system of these files with that root, the same on any number of workers.
pub fn check_system<R: Threads + Sync, G: Gate + Sync>(
    rt: &R,
    alloc: Global,
    files: &FileList,
    root: &Root,
    workers: u32,
    gate: &G,
) -> Result<Verdict, Memory>
    requires workers { (1 ≤ workers) × (workers ≤ MOST_WORKERS) }
    requires few { length files.now ≤ MOST_FILES }
    requires short { AreShort (texts_of files.now) }
    ensures { IfOk result (IsVerdict files.now root.now) }
{
    let mut faults = faults_of(rt, alloc, files, root, workers, gate)?;
    if faults.is_empty() {
        return Ok(Verdict::Yes(files.count()));
    }
    sort_faults(&mut faults, files);
    Ok(Verdict::Faults(faults))
}
