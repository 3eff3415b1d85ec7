//! The faults of given classes, and the tables of the universe that they make where there is none.

ghost use Rattle.std.specs.Prelude.{◌≡◌, ◌≤◌, ◌<◌, ◌^◌, drop, length, map, take, is_some, IfOk, IfErr, OnOk};
ghost use Rattle.eif_ancestry.specs.Ancestries.{number_graph, AreAncestries};
ghost use Rattle.eif_base.specs.Appends.{Appends};
ghost use Rattle.eif_rules.specs.FaultForms.{IsNone};
ghost use Rattle.eif_rules.specs.UniverseRules.{ClassBroken, OwnBroken, UniverseBroken};
ghost use Rattle.eif_system.specs.Inheritance.{graph_of};
ghost use Rattle.eif_system.specs.Kernel.{kernel_count};
ghost use Rattle.eif_system.specs.Universe.{class_number};
ghost use Rattle.eif_tree.specs.View.{class_view};
ghost use Rattle.eif_universe.specs.ClassNumbering.{MarksRepeats};
ghost use Rattle.eif_universe.specs.ClassesView.{classes_view};
ghost use Rattle.eif_universe.specs.Refusals.{IsRefusalOf};
ghost use Rattle.eif_universe.specs.Universes.{AreTables, GivenBroken, HasKernel, IsJudged, given_in, lists_of, numbers_of};

use crate::class_numbers::{ClassNumbers, Numbering, number_classes};
use crate::class_rules::push_text_faults;
use crate::classes::Classes;
use crate::graph::inheritance_graph;
use crate::inheritance::push_inheritance_faults;
use crate::kernel::KERNEL_COUNT;
use crate::root_rules::push_root_faults;
use eif_ancestry::{Ancestors, ancestors_of_all, inheritance_order};
use eif_base::{ClassId, Code, FaultList, Memory, Root};
use eif_tree::ClassTree;
use eif_written::{LentFault, push_where};
use std::alloc::Global;

/// What is found out of classes.
#[derive(Drop)]
pub(crate) struct Judged {
    pub numbers: ClassNumbers,
    pub graph: Vec<Vec<u32>>,
    pub ancestors: Vec<Ancestors>,
    pub faults: FaultList,
}

/// The tables of a universe.
#[derive(Drop)]
pub(crate) struct Tables {
    pub numbers: ClassNumbers,
    pub parents: Vec<Vec<ClassId>>,
    pub ancestors: Vec<Ancestors>,
    pub order: Vec<ClassId>,
}

/// Why classes make no universe.
#[derive(Drop)]
pub(crate) enum Refusal {
    Faults(FaultList),
    Memory,
}

impl From<Memory> for Refusal {
    ghost use Rattle.eif_universe.specs.declared.judge.Refusal.TheVariants as refusal;

    ghost from_gives = { λ _ r. r ≡ refusal.Memory };

    fn from(_error: Memory) -> Refusal {
        Refusal::Memory
    }
}

/// Adds the faults of the class `d`, whose name no earlier class has.
fn push_own_faults(
    alloc: Global,
    out: &mut FaultList,
    classes: &Classes<'_>,
    ancestors: &[Ancestors],
    d: u32,
    class: &ClassTree,
) -> Result<(), Memory>
    requires rows { AreAncestries (graph_of (classes_view classes.now)) ancestors.now }
    requires class { d < length ancestors.now }
    ensures { OnOk result (Appends out.old out.new
        (OwnBroken (classes_view classes.now) d (class_view class.now))) }
{
    push_text_faults(alloc, out, *classes, class)?;
    push_inheritance_faults(alloc, out, classes, ancestors, d, class)?;
    Ok(())
}

/// Adds the faults of the class `d`.
fn push_class_faults(
    alloc: Global,
    out: &mut FaultList,
    classes: &Classes<'_>,
    ancestors: &[Ancestors],
    d: u32,
    class: &ClassTree,
    is_repeated: bool,
) -> Result<(), Memory>
    requires rows { AreAncestries (graph_of (classes_view classes.now)) ancestors.now }
    requires class { d < length ancestors.now }
    requires repeated { is_repeated
        ≡ is_some (class_number (take d (classes_view classes.now)) class.now.name) }
    ensures { OnOk result (Appends out.old out.new
        (ClassBroken (classes_view classes.now) d (class_view class.now))) }
{
    if is_repeated {
        push_where(alloc, out, true, &LentFault::of(class, Code::Xdup, 1))?;
        return Ok(());
    }
    push_own_faults(alloc, out, classes, ancestors, d, class)?;
    Ok(())
}

/// Adds the faults of the given classes.
fn push_given_faults(
    alloc: Global,
    out: &mut FaultList,
    classes: &Classes<'_>,
    ancestors: &[Ancestors],
    given: &[ClassTree],
    repeated: &[bool],
) -> Result<(), Memory>
    requires rows { AreAncestries (graph_of (classes_view classes.now)) ancestors.now }
    requires few { length (classes_view classes.now) < 2 ^ 32 }
    requires kernel { HasKernel (classes_view classes.now) }
    requires given { map class_view given.now ≡ given_in (classes_view classes.now) }
    requires repeated { MarksRepeats (classes_view classes.now) repeated.now }
    ensures { OnOk result (Appends out.old out.new
        (GivenBroken (classes_view classes.now) (given_in (classes_view classes.now)))) }
{
    'classes: for (i, class) in given.iter().enumerate() {
        let d = KERNEL_COUNT as usize + i;
        push_class_faults(alloc, out, classes, ancestors, d as u32, class, repeated[d])?;
    }
    Ok(())
}

/// The classes after the kernel's.
pub(crate) fn given_part(trees: &[ClassTree]) -> &[ClassTree]
    requires { kernel_count ≤ length trees.now }
    ensures { result.now ≡ drop kernel_count trees.now }
{
    &trees[KERNEL_COUNT as usize..]
}

/// What is found out of the kernel's classes and the given ones.
fn judge(alloc: Global, trees: &[ClassTree], root: &Root) -> Result<Judged, Memory>
    requires few { length trees.now < 2 ^ 32 }
    requires kernel { HasKernel (map class_view trees.now) }
    ensures { IfOk result (IsJudged (map class_view trees.now) root.now) }
{
    let Numbering { numbers, repeated } = number_classes(alloc, trees)?;
    let classes = Classes {
        trees,
        numbers: &numbers,
    };
    let graph = inheritance_graph(alloc, &classes)?;
    let ancestors = ancestors_of_all(alloc, &graph)?;
    let mut faults = FaultList::new(alloc);
    let given = given_part(trees);
    push_given_faults(alloc, &mut faults, &classes, &ancestors, given, &repeated)?;
    push_root_faults(alloc, &mut faults, &classes, root)?;
    Ok(Judged {
        numbers,
        graph,
        ancestors,
        faults,
    })
}

/// The classes with these numbers.
fn class_ids(alloc: Global, numbers: &[u32]) -> Result<Vec<ClassId>, Memory>
    ensures { IfOk result (λ ids. numbers_of ids.items ≡ numbers.now) }
{
    let mut ids = Vec::with_capacity(alloc, numbers.len())?;
    'numbers: for number in numbers {
        ids.push(ClassId(*number))?;
    }
    Ok(ids)
}

/// The lists of the classes with these numbers.
fn class_lists(alloc: Global, graph: &[Vec<u32>]) -> Result<Vec<Vec<ClassId>>, Memory>
    ensures { IfOk result (λ lists. lists_of lists.items ≡ number_graph graph.now) }
{
    let mut lists = Vec::with_capacity(alloc, graph.len())?;
    'lists: for numbers in graph {
        lists.push(class_ids(alloc, numbers)?)?;
    }
    Ok(lists)
}

/// The tables of the classes, where none is broken.
pub(crate) fn check(alloc: Global, trees: &[ClassTree], root: &Root) -> Result<Tables, Refusal>
    requires few { length trees.now < 2 ^ 32 }
    requires kernel { HasKernel (map class_view trees.now) }
    ensures tables { IfOk result (λ t. AreTables (map class_view trees.now) t.numbers
        t.parents.items
        t.ancestors.items t.order.items) }
    ensures sound { OnOk result
        (IsNone (UniverseBroken (given_in (map class_view trees.now)) root.now)) }
    ensures faults { IfErr result
        (IsRefusalOf (UniverseBroken (given_in (map class_view trees.now)) root.now)) }
{
    let Judged {
        numbers,
        graph,
        ancestors,
        faults,
    } = judge(alloc, trees, root)?;
    if !faults.is_empty() {
        return Err(Refusal::Faults(faults));
    }
    let order = inheritance_order(alloc, &graph, &ancestors)?;
    Ok(Tables {
        numbers,
        parents: class_lists(alloc, &graph)?,
        ancestors,
        order: class_ids(alloc, &order)?,
    })
}
