//! The universe of a system.

ghost use Rattle.std.specs.Prelude.{◌≡◌, ◌++◌, ◌<◌, ◌≤◌, ◌↔◌, IsTrue, Some, length, map, drop, slice_get, IfOk, IfErr, OnOk};
ghost use Rattle.std.specs.Option.{option_map};
ghost use Rattle.eif_rules.specs.FaultForms.{IsNone};
ghost use Rattle.eif_rules.specs.UniverseRules.{UniverseBroken};
ghost use Rattle.eif_system.specs.Graph.{IsOrder, Reaches, parents_of};
ghost use Rattle.eif_system.specs.Inheritance.{graph_of};
ghost use Rattle.eif_system.specs.Kernel as the;
ghost use Rattle.eif_system.specs.Universe as system;
ghost use Rattle.eif_tree.specs.View.{class_view};
ghost use Rattle.eif_universe.specs.Refusals.{IsErrorOf, given_back};
ghost use Rattle.eif_universe.specs.Universes.{classes_of, numbers_of};

use crate::class_numbers::ClassNumbers;
use crate::inheritance::reaches;
use crate::judge::{Refusal, Tables, check, given_part};
use crate::kernel::KERNEL_COUNT;
use eif_ancestry::Ancestors;
use eif_base::{ClassId, FaultList, Name, Root};
use eif_tree::ClassTree;
use std::alloc::Global;
use std::marker::Model;

/// The classes of a system that break no rule on classes, types and inheritance: the kernel's and
/// the given ones.
#[derive(Drop)]
pub struct Universe {
    trees: Vec<ClassTree>,
    numbers: ClassNumbers,
    parents: Vec<Vec<ClassId>>,
    ancestors: Vec<Ancestors>,
    order: Vec<ClassId>,
}

impl Model for Universe {
    ghost use Rattle.std.specs.Prelude.{List};
    ghost use Rattle.std.specs.Coded.{codes};
    ghost use Rattle.eif_tree.specs.declared.class.ClassTree.{ClassTree};
    ghost use Rattle.eif_tree.specs.contracts.class.ClassTree as class_tree;
    ghost use Rattle.eif_universe.specs.Universes.{AreTables, classes_of};

    ghost Value = { List ClassTree };

    ghost coded = { Prim.hlevel (codes, class_tree.the_row.coded) };

    ghost view = { λ u. u.trees.items };

    ghost invariant = { λ u. AreTables (classes_of u.trees.items) u.numbers u.parents.items
        u.ancestors.items u.order.items };
}

/// Why given classes make no universe. They are handed back.
#[derive(Drop)]
pub enum UniverseError {
    /// They break these rules.
    Faults {
        faults: FaultList,
        given: Vec<ClassTree>,
    },
    /// There was not enough memory.
    Memory {
        given: Vec<ClassTree>,
    },
}

// The kernel's classes and then the given ones, which are handed back for want of memory.
fn joined(kernel: Vec<ClassTree>, given: Vec<ClassTree>) -> Result<Vec<ClassTree>, Vec<ClassTree>>
    ensures ok { IfOk result (λ trees. trees.items ≡ kernel.items ++ given.items) }
    ensures err { IfErr result (λ back. back.items ≡ given.items) }
{
    let mut trees = kernel;
    let mut given = given;
    match trees.append(&mut given) {
        Ok(()) => Ok(trees),
        Err(_) => Err(given),
    }
}

// The classes after the kernel's.
fn without_kernel(trees: Vec<ClassTree>) -> Vec<ClassTree>
    requires { the.kernel_count ≤ length trees.items }
    ensures { result.items ≡ drop the.kernel_count trees.items }
{
    let mut given = trees;
    let count = given.len() - KERNEL_COUNT as usize;
    given.rotate_left(KERNEL_COUNT as usize);
    given.truncate(count);
    given
}

impl Universe {
    /// The universe of the given classes.
    pub fn build(
        alloc: Global,
        kernel: Vec<ClassTree>,
        given: Vec<ClassTree>,
        root: &Root,
    ) -> Result<Universe, UniverseError>
        requires kernel { map class_view kernel.items ≡ the.kernel }
        requires few { length given.items ≤ 65536 }
        ensures ok { IfOk result
            (λ u. classes_of u ≡ system.universe (map class_view given.items)) }
        ensures sound { OnOk result
            (IsNone (UniverseBroken (map class_view given.items) root.now)) }
        ensures faults { IfErr result
            (IsErrorOf (UniverseBroken (map class_view given.items) root.now)) }
        ensures given { IfErr result (λ e. given_back e ≡ map class_view given.items) }
    {
        let trees = match joined(kernel, given) {
            Ok(trees) => trees,
            Err(given) => return Err(UniverseError::Memory { given }),
        };
        match check(alloc, &trees, root) {
            Ok(tables) => {
                let Tables {
                    numbers,
                    parents,
                    ancestors,
                    order,
                } = tables;
                Ok(Universe {
                    trees,
                    numbers,
                    parents,
                    ancestors,
                    order,
                })
            }
            Err(Refusal::Faults(faults)) => Err(UniverseError::Faults {
                faults,
                given: without_kernel(trees),
            }),
            Err(Refusal::Memory) => Err(UniverseError::Memory {
                given: without_kernel(trees),
            }),
        }
    }

    /// How many classes there are. Their numbers are those below.
    pub fn class_count(&self) -> u32
        ensures { result ≡ length (classes_of self.now) }
    {
        self.trees.len() as u32
    }

    /// The given classes, in the order of their files.
    pub fn given(&self) -> &[ClassTree]
        ensures { map class_view result.now ≡ drop the.kernel_count (classes_of self.now) }
    {
        given_part(&self.trees)
    }

    /// The class with that name.
    pub fn class_named(&self, name: &Name) -> Option<ClassId>
        ensures { option_map (λ c. c.0) result
            ≡ system.class_number (classes_of self.now) name.now }
    {
        match self.numbers.find(name.text()) {
            Some(number) => Some(ClassId(number)),
            None => None,
        }
    }

    /// The text of the class.
    pub fn tree(&self, c: ClassId) -> &ClassTree
        requires { c.0 < length (classes_of self.now) }
        ensures { slice_get (classes_of self.now) c.0 ≡ Some (class_view result.now) }
    {
        &self.trees[c.0 as usize]
    }

    /// The classes of its parent clauses, in their order. A class without clauses has the parent
    /// ANY, and ANY has none.
    pub fn parents(&self, c: ClassId) -> &[ClassId]
        requires { c.0 < length (classes_of self.now) }
        ensures { numbers_of result.now ≡ parents_of (graph_of (classes_of self.now)) c.0 }
    {
        &self.parents[c.0 as usize]
    }

    /// All classes, each once and after its parents.
    pub fn order(&self) -> &[ClassId]
        ensures { IsOrder (graph_of (classes_of self.now)) (numbers_of result.now) }
    {
        &self.order
    }

    /// Whether the class `c` is the class `k` or descends from it.
    pub fn is_descendant(&self, c: ClassId, k: ClassId) -> bool
        requires class { c.0 < length (classes_of self.now) }
        requires other { k.0 < length (classes_of self.now) }
        ensures { IsTrue result ↔ Reaches (graph_of (classes_of self.now)) c.0 k.0 }
    {
        reaches(&self.ancestors, c.0, k.0)
    }
}

fn crosses<T: Send + Sync>() {}

/// A universe may be sent to another thread, and shared by threads.
pub fn universe_crosses() {
    crosses::<Universe>();
}
