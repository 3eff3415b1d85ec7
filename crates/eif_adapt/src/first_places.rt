ghost use Rattle.std.specs.Prelude.{◌≡◌, ℕ, List, None, OnOk};
ghost use Rattle.std.specs.Str.{bytes_eq};
ghost use Rattle.eif_adapt.specs.FirstPlaces.{place_of, or_place};

use eif_base::{Memory, Name};
use indexmap::IndexMap;
use std::alloc::Global;

/// For each name the place that it was given first.
#[derive(Drop)]
pub(crate) struct FirstPlaces {
    alloc: Global,
    places: IndexMap<Vec<u8>, usize>,
}

impl FirstPlaces {
    /// No name has a place.
    pub fn new(alloc: Global) -> FirstPlaces
        ensures { (n : List ℕ) → place_of result n ≡ None }
    {
        FirstPlaces {
            alloc,
            places: IndexMap::new(alloc),
        }
    }

    /// The place of the name.
    pub fn find(&self, name: &Name) -> Option<usize>
        ensures { result ≡ place_of self.now name.now }
    {
        self.places.get(name.text()).copied()
    }

    /// Gives the name this place, unless it has one.
    pub fn add(&mut self, name: &Name, place: usize) -> Result<(), Memory>
        ensures { OnOk result ((n : List ℕ) → place_of self.new n
            ≡ or_place (place_of self.old n) (bytes_eq n name.now) place) }
    {
        if self.find(name).is_some() {
            return Ok(());
        }
        let copy = Vec::from_slice(self.alloc, name.text())?;
        self.places.insert(copy, place)?;
        Ok(())
    }
}
