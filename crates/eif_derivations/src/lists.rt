//! Lists of actuals. Equal ones have one number.

ghost use Rattle.std.specs.Prelude.{◌≡◌, [], ℕ, true, Some, slice_get, IfOk, IfSome};
ghost use Rattle.std.specs.Option.{option_map};
ghost use Rattle.eif_derivations.specs.ListNumbers.{Keeps, Holds, lists_of};
ghost use Rattle.eif_type_forms.specs.View.{actuals_view};

use crate::digest::digest_of;
use eif_base::Memory;
use eif_type_forms::{Ty, same_types};
use indexmap::IndexMap;
use std::alloc::Global;

/// The number of a list of actuals.
#[derive(Clone, Copy)]
pub struct ListId(pub u32);

/// Lists of actuals by their numbers. The lists with one digest stand together, so that an equal list
/// is found by few comparisons.
#[derive(Drop)]
pub struct ActualLists {
    alloc: Global,
    lists: Vec<Vec<Ty>>,
    by_digest: IndexMap<u32, Vec<ListId>>,
}

impl ActualLists {
    /// No list.
    pub fn new(alloc: Global) -> ActualLists
        ensures { lists_of result ≡ [] }
    {
        ActualLists {
            alloc,
            lists: Vec::new(alloc),
            by_digest: IndexMap::new(alloc),
        }
    }

    /// The list with that number.
    pub fn get(&self, id: ListId) -> Option<&[Ty]>
        ensures { option_map (λ l. actuals_view l.now) result
            ≡ slice_get (lists_of self.now) id.0 }
    {
        match self.lists.get(id.0 as usize) {
            Some(list) => Some(list),
            None => None,
        }
    }

    /// The number of the list. A list that is equal to none so far gets the next number.
    pub fn intern(&mut self, list: Vec<Ty>) -> Result<ListId, Memory>
        ensures kept { Keeps (lists_of self.old) (lists_of self.new) }
        ensures id { IfOk result
            (λ id. Holds (lists_of self.new) (Some id) (Some (actuals_view list.items))) }
    {
        let digest = digest_of(&list);
        if let Some(id) = self.find(digest, &list) {
            return Ok(id);
        }
        self.add(digest, list)
    }

    /// The list that is equal among those with that digest.
    fn find(&self, digest: u32, list: &[Ty]) -> Option<ListId>
        ensures { IfSome result
            (λ id. Holds (lists_of self.now) (Some id) (Some (actuals_view list.now))) }
    {
        match self.by_digest.get(&digest) {
            Some(ids) => self.find_among(ids, list),
            None => None,
        }
    }

    /// The list that is equal among those with these numbers.
    fn find_among(&self, ids: &[ListId], list: &[Ty]) -> Option<ListId>
        ensures { IfSome result
            (λ id. Holds (lists_of self.now) (Some id) (Some (actuals_view list.now))) }
    {
        'ids: for id in ids {
            if self.is_list(*id, list) {
                return Some(*id);
            }
        }
        None
    }

    /// Whether the list has that number.
    fn is_list(&self, id: ListId, list: &[Ty]) -> bool
        ensures { result ≡ true
            → Holds (lists_of self.now) (Some id) (Some (actuals_view list.now)) }
    {
        match self.get(id) {
            Some(own) => same_types(own, list),
            None => false,
        }
    }

    /// Adds the list. Numbers have 32 bits: more lists than that count as want of memory.
    fn add(&mut self, digest: u32, list: Vec<Ty>) -> Result<ListId, Memory>
        ensures kept { Keeps (lists_of self.old) (lists_of self.new) }
        ensures id { IfOk result
            (λ id. Holds (lists_of self.new) (Some id) (Some (actuals_view list.items))) }
    {
        let number = self.lists.len();
        if number >= u32::MAX as usize {
            return Err(Memory);
        }
        let id = ListId(number as u32);
        let alloc = self.alloc;
        let ids = self.by_digest.entry(digest)?.or_insert(Vec::new(alloc));
        ids.push(id)?;
        self.lists.push(list)?;
        Ok(id)
    }
}
