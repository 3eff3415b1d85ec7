ghost use Rattle.std.specs.Prelude.{◌≡◌, ◌<◌, ◌≤◌, ◌++◌, ◌∷◌, [], Some, OnOk, OnErr, IfOk, IsTrue, ◌↔◌, take, length, slice_get, List};
ghost use Rattle.std.specs.Slice.Iter.{iter_rest};
ghost use Rattle.std.specs.List.Sorted.{IsPermutation, IsSortedByClosure};
ghost use Rattle.std.specs.List.Retain.{IsDeduped};
ghost use Rattle.std.specs.Fn.{CalledAtPairMut};

use crate::code::Code;
use crate::memory::Memory;
use crate::name::Name;
use crate::place::Place;
use std::alloc::Global;
use std::cmp::Ordering;
use std::marker::Model;
use std::slice::Iter;

/// One breach of one rule. A missing name is empty. `case` is the number of the rule within its
/// code, from 1.
#[derive(Debug, Drop)]
pub struct Fault {
    pub code: Code,
    pub case: u8,
    pub class: Name,
    pub feature: Name,
    pub place: Place,
    pub about: Name,
}

impl Fault {
    /// The same fault once more.
    pub fn copy(&self, alloc: Global) -> Result<Fault, Memory>
        ensures { IfOk result (λ f. f ≡ self.now) }
    {
        Ok(Fault {
            code: self.code,
            case: self.case,
            class: self.class.copy(alloc)?,
            feature: self.feature.copy(alloc)?,
            place: self.place,
            about: self.about.copy(alloc)?,
        })
    }
}

/// A list of faults.
#[derive(Debug, Drop)]
pub struct FaultList {
    alloc: Global,
    faults: Vec<Fault>,
}

impl Model for FaultList {
    ghost use Rattle.std.specs.Prelude.{List};
    ghost use Rattle.eif_base.specs.declared.fault.Fault.{Fault};

    ghost Value = { List Fault };

    ghost view = { λ l. l.faults.items };
}

impl FaultList {
    /// No fault.
    pub fn new(alloc: Global) -> FaultList
        ensures { result ≡ [] }
    {
        FaultList {
            alloc,
            faults: Vec::new(alloc),
        }
    }

    /// Adds a fault at the end.
    pub fn push(&mut self, fault: Fault) -> Result<(), Memory>
        ensures ok { OnOk result (self.new ≡ self.old ++ fault ∷ []) }
        ensures err { OnErr result (self.new ≡ self.old) }
    {
        self.faults.push(fault)?;
        Ok(())
    }

    /// Adds the faults of the other list at the end.
    pub fn merge(&mut self, other: &FaultList) -> Result<(), Memory>
        ensures ok { OnOk result (self.new ≡ self.old ++ other.now) }
        ensures err { OnErr result (self.new ≡ self.old) }
    {
        let count = self.faults.len();
        let alloc = self.alloc;
        let merged = push_copies(alloc, &mut self.faults, &other.faults);
        if merged.is_err() {
            self.faults.truncate(count);
        }
        merged
    }

    /// How many faults there are.
    pub fn count(&self) -> usize
        ensures { result ≡ length self.now }
    {
        self.faults.len()
    }

    /// Whether there is none.
    pub fn is_empty(&self) -> bool
        ensures { IsTrue result ↔ (self.now ≡ []) }
    {
        self.faults.is_empty()
    }

    /// The faults, in order.
    pub fn iter(&self) -> Iter<'_, Fault>
        ensures { iter_rest result ≡ self.now }
    {
        self.faults.iter()
    }

    /// The fault with that number, from 0.
    pub fn at(&self, i: usize) -> &Fault
        requires { i < length self.now }
        ensures { slice_get self.now i ≡ Some result.now }
    {
        &self.faults[i]
    }

    /// Sorts by `compare`, and then drops each fault that is, by `same`, the one kept before it.
    /// This takes no memory.
    pub fn sort_dedup_by<
        C: FnMut(&Fault, &Fault) -> Ordering,
        S: FnMut(&mut Fault, &mut Fault) -> bool,
    >(&mut self, compare: C, same: S)
        requires compares { C.IsAlwaysCallable compare }
        requires tells { S.IsAlwaysCallable same }
        ensures { (sorted : List Fault) × IsPermutation self.old sorted × IsSortedByClosure C.FnMut compare sorted × IsDeduped (CalledAtPairMut S.FnMut) same sorted self.new }
    {
        self.faults.sort_unstable_by(compare);
        self.faults.dedup_by(same);
    }
}

/// Adds copies at the end. After an error a part of them may have been added.
fn push_copies(alloc: Global, faults: &mut Vec<Fault>, more: &[Fault]) -> Result<(), Memory>
    ensures ok { OnOk result (faults.new.items ≡ faults.old.items ++ more.now) }
    ensures err { OnErr result (take (length faults.old.items) faults.new.items ≡ faults.old.items) }
{
    for fault in more {
        let copy = fault.copy(alloc)?;
        faults.push(copy)?;
    }
    Ok(())
}
