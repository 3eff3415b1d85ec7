ghost use Rattle.std.specs.Prelude.{◌≡◌, ℕ, ◌<◌, ◌^◌, ◌++◌, ◌||◌, ◌&&◌, ◌==◌, true, not, List, length, IfOk, OnOk};
ghost use Rattle.eif_system.specs.Graph.{is_member, IsProperAncestor, IsClosed};
ghost use Rattle.eif_ancestry.specs.Ancestries.{number_graph, IsRisingListOf, AreAncestries};
ghost use Rattle.eif_ancestry.specs.Walks.{has_mark, IsClear, IsTidy, IsWholeWalk};

use crate::ancestors::Ancestors;
use eif_base::Memory;
use std::alloc::Global;

// The classes met on the way up from a class, in a list and by a mark for each.
#[derive(Drop)]
struct Walk {
    met: Vec<u32>,
    marks: Vec<bool>,
}

// Takes the marks of the classes away.
fn unmark(marks: &mut Vec<bool>, classes: &[u32])
    requires { (a : ℕ) → is_member a classes.now ≡ true → a < length marks.old.items }
    ensures long { length marks.new.items ≡ length marks.old.items }
    ensures marks { (a : ℕ) → has_mark marks.new.items a
        ≡ (has_mark marks.old.items a && not (is_member a classes.now)) }
{
    for a in classes {
        marks[*a as usize] = false;
    }
}

impl Walk {
    // A walk among so many classes, which has met none.
    fn new(alloc: Global, count: usize) -> Result<Self, Memory>
        ensures { IfOk result (λ w. IsClear count w.met.items w.marks.items) }
    {
        let mut marks = Vec::with_capacity(alloc, count)?;
        for i in 0..count {
            marks.push(false)?;
        }
        Ok(Walk {
            met: Vec::new(alloc),
            marks,
        })
    }

    // Meets a class.
    fn meet(&mut self, p: u32) -> Result<(), Memory>
        requires within { p < length self.old.marks.items }
        requires tidy { IsTidy (length self.old.marks.items) self.old.met.items self.old.marks.items }
        ensures tidy { OnOk result
            (IsTidy (length self.old.marks.items) self.new.met.items self.new.marks.items) }
        ensures members { OnOk result
            ((a : ℕ) → is_member a self.new.met.items
            ≡ (is_member a self.old.met.items || (p == a))) }
        ensures more { OnOk result
            ((more : List ℕ) × (self.new.met.items ≡ self.old.met.items ++ more)) }
    {
        if !self.marks[p as usize] {
            self.marks[p as usize] = true;
            self.met.push(p)?;
        }
        Ok(())
    }

    // Meets each of the classes.
    fn meet_all(&mut self, parents: &[u32]) -> Result<(), Memory>
        requires within { (p : ℕ) → is_member p parents.now ≡ true
            → p < length self.old.marks.items }
        requires tidy { IsTidy (length self.old.marks.items) self.old.met.items self.old.marks.items }
        ensures tidy { OnOk result
            (IsTidy (length self.old.marks.items) self.new.met.items self.new.marks.items) }
        ensures members { OnOk result
            ((a : ℕ) → is_member a self.new.met.items
            ≡ (is_member a self.old.met.items || is_member a parents.now)) }
        ensures more { OnOk result
            ((more : List ℕ) × (self.new.met.items ≡ self.old.met.items ++ more)) }
    {
        for p in parents {
            self.meet(*p)?;
        }
        Ok(())
    }

    // Meets a class and all its ancestors.
    fn climb(&mut self, graph: &[Vec<u32>], d: u32) -> Result<(), Memory>
        requires closed { IsClosed (number_graph graph.now) }
        requires class { d < length graph.now }
        requires clear { IsClear (length graph.now) self.old.met.items self.old.marks.items }
        ensures tidy { OnOk result
            (IsTidy (length graph.now) self.new.met.items self.new.marks.items) }
        ensures whole { OnOk result (IsWholeWalk (number_graph graph.now) d self.new.met.items) }
    {
        self.meet(d)?;
        let mut i = 0;
        'classes: while i < self.met.len() {
            let class = self.met[i];
            self.meet_all(graph[class as usize].as_slice())?;
            i += 1;
        }
        Ok(())
    }

    // Forgets the classes met.
    fn clear(&mut self)
        requires { IsTidy (length self.old.marks.items) self.old.met.items self.old.marks.items }
        ensures { IsClear (length self.old.marks.items) self.new.met.items self.new.marks.items }
    {
        unmark(&mut self.marks, &self.met);
        self.met.clear();
    }

    // The proper ancestors of a class.
    fn ancestors_of(
        &mut self,
        alloc: Global,
        graph: &[Vec<u32>],
        d: u32,
    ) -> Result<Ancestors, Memory>
        requires closed { IsClosed (number_graph graph.now) }
        requires class { d < length graph.now }
        requires clear { IsClear (length graph.now) self.old.met.items self.old.marks.items }
        ensures clear { OnOk result
            (IsClear (length graph.now) self.new.met.items self.new.marks.items) }
        ensures ancestors { IfOk result
            (IsRisingListOf (IsProperAncestor (number_graph graph.now) d)) }
    {
        self.climb(graph, d)?;
        let ancestors = Ancestors::from_walk(alloc, self.met.as_slice())?;
        self.clear();
        Ok(ancestors)
    }
}

/// The proper ancestors of each class, from the lists of their parents.
pub fn ancestors_of_all(alloc: Global, graph: &[Vec<u32>]) -> Result<Vec<Ancestors>, Memory>
    requires closed { IsClosed (number_graph graph.now) }
    requires few { length graph.now < 2 ^ 32 }
    ensures { IfOk result (λ rows. AreAncestries (number_graph graph.now) rows.items) }
{
    let mut walk = Walk::new(alloc, graph.len())?;
    let mut rows = Vec::with_capacity(alloc, graph.len())?;
    for d in 0..graph.len() {
        rows.push(walk.ancestors_of(alloc, graph, d as u32)?)?;
    }
    Ok(rows)
}
