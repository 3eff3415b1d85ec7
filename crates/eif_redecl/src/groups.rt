//! The entries of a class, name by name.

ghost use Rattle.std.specs.Prelude.{◌≡◌, ◌==◌, ◌++◌, ◌∷◌, [], if◌then◌else◌, IfOk, IfSome, OnOk};
ghost use Rattle.eif_base.specs.declared.feat_id.FeatId as id;
ghost use Rattle.eif_redecl.specs.SeenClauses.{group_at};

use crate::entry::SeenEntry;
use eif_base::{FeatId, Memory};
use std::alloc::Global;

/// The entries of each name of a class, by the numbers of the names.
#[derive(Drop)]
pub(crate) struct EntryGroups<'u> {
    groups: Vec<Vec<SeenEntry<'u>>>,
}

/// So many lists without an entry.
fn empty_groups<'u>(alloc: Global, count: u32) -> Result<Vec<Vec<SeenEntry<'u>>>, Memory>
    ensures { IfOk result (λ v. (f : id.FeatId) → group_at v.items f ≡ []) }
{
    let mut groups = Vec::new(alloc);
    'names: for _ in 0..count {
        groups.push(Vec::new(alloc))?;
    }
    Ok(groups)
}

impl<'u> EntryGroups<'u> {
    /// No entry for any of so many names.
    pub fn new(alloc: Global, count: u32) -> Result<EntryGroups<'u>, Memory>
        ensures { IfOk result (λ g. (f : id.FeatId) → group_at g.groups.items f ≡ []) }
    {
        let groups = empty_groups(alloc, count)?;
        Ok(EntryGroups { groups })
    }

    /// Adds the entry to those of the name with that number.
    pub fn add(&mut self, name: FeatId, entry: SeenEntry<'u>) -> Result<(), Memory>
        ensures { OnOk result ((f : id.FeatId) → group_at self.new.groups.items f
            ≡ group_at self.old.groups.items f ++ (if f.0 == name.0 then entry.entry ∷ [] else [])) }
    {
        // there is one: each name has its list
        match self.groups.get_mut(name.0 as usize) {
            Some(group) => {
                group.push(entry)?;
                Ok(())
            }
            None => Err(Memory),
        }
    }

    /// The entries of the name with that number.
    pub fn of(&self, name: FeatId) -> Option<&[SeenEntry<'u>]>
        ensures { IfSome result (λ es. es.now ≡ group_at self.now.groups.items name) }
    {
        match self.groups.get(name.0 as usize) {
            Some(group) => Some(group),
            None => None,
        }
    }
}
