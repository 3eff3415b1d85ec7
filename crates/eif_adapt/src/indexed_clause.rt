//! A parent clause in which names are found fast.

ghost use Rattle.std.specs.Prelude.{◌≡◌, ℕ, List, map, slice_get, option_and_then, IfOk, OnOk};
ghost use Rattle.std.specs.List.{find};
ghost use Rattle.std.specs.Option.{option_map};
ghost use Rattle.std.proofs.Props.{props};
ghost use Rattle.eif_adapt.specs.Adaptations.{adapted, entry_view, feature_view};
ghost use Rattle.eif_adapt.specs.FirstPlaces.{place_of, or_place, first_place, AreFirstPlaces};
ghost use Rattle.eif_adapt.specs.NamedItems.{IsNameSet, has_old_name, names_item, names_all};
ghost use Rattle.eif_classes.specs.Clients as the_clients;
ghost use Rattle.eif_classes.specs.Names as the;
ghost use Rattle.eif_tree.specs.Members.{has_name};
ghost use Rattle.eif_tree.specs.View.{clients_view, export_view, parent_view};

use crate::adapted::AdaptedEntry;
use crate::clients::copy_clients;
use crate::first_places::FirstPlaces;
use crate::parent_feature::ParentFeature;
use eif_base::{Memory, Name, NameSet};
use eif_tree::{Clients, ExportItem, NameAt, ParentClause, RenamePair};
use std::alloc::Global;

/// A parent clause, with where it names what: what it makes of a name is found in about constant
/// time.
#[derive(Drop)]
pub struct IndexedClause<'c> {
    pub tree: &'c ParentClause,
    renames: FirstPlaces,
    exports: FirstPlaces,
    all: Option<&'c ExportItem>,
    undefines: NameSet,
    redefines: NameSet,
    selects: NameSet,
    ghost first_renames: { AreFirstPlaces has_old_name tree.now.renames.items renames } by { Prim.hlevel props },
    ghost first_exports: { AreFirstPlaces names_item (map export_view tree.now.exports.items) exports } by { Prim.hlevel props },
    ghost first_all: { option_map (λ x. export_view x.now) all ≡ find names_all (map export_view tree.now.exports.items) } by { Prim.hlevel props },
    ghost undefined: { IsNameSet undefines tree.now.undefines.items } by { Prim.hlevel props },
    ghost redefined: { IsNameSet redefines tree.now.redefines.items } by { Prim.hlevel props },
    ghost selected: { IsNameSet selects tree.now.selects.items } by { Prim.hlevel props },
}

/// For each old name the place of its first renaming.
fn first_renames(alloc: Global, renames: &[RenamePair]) -> Result<FirstPlaces, Memory>
    ensures { IfOk result (AreFirstPlaces has_old_name renames.now) }
{
    let mut places = FirstPlaces::new(alloc);
    'renames: for (i, rename) in renames.iter().enumerate() {
        places.add(&rename.old_name.name, i)?;
    }
    Ok(places)
}

/// Gives each of the names this place, unless it has one.
fn add_all(places: &mut FirstPlaces, names: &[NameAt], place: usize) -> Result<(), Memory>
    ensures { OnOk result ((n : List ℕ) → place_of places.new n
        ≡ or_place (place_of places.old n) (has_name names.now n) place) }
{
    'names: for name in names {
        places.add(&name.name, place)?;
    }
    Ok(())
}

/// For each name the place of the first export item that lists it.
fn first_exports(alloc: Global, exports: &[ExportItem]) -> Result<FirstPlaces, Memory>
    ensures { IfOk result (AreFirstPlaces names_item (map export_view exports.now)) }
{
    let mut places = FirstPlaces::new(alloc);
    'exports: for (i, item) in exports.iter().enumerate() {
        add_all(&mut places, &item.names, i)?;
    }
    Ok(places)
}

/// The first export item with `all`.
fn first_all(exports: &[ExportItem]) -> Option<&ExportItem>
    ensures { option_map (λ x. export_view x.now) result
        ≡ find names_all (map export_view exports.now) }
{
    'exports: for item in exports {
        if item.all.is_some() {
            return Some(item);
        }
    }
    None
}

/// The set of the names of the list.
fn name_set(alloc: Global, names: &[NameAt]) -> Result<NameSet, Memory>
    ensures { IfOk result (λ s. IsNameSet s names.now) }
{
    let mut set = NameSet::new(alloc);
    'names: for name in names {
        set.insert(&name.name)?;
    }
    Ok(set)
}

impl<'c> IndexedClause<'c> {
    /// The clause, its lists read once.
    pub fn new(alloc: Global, tree: &'c ParentClause) -> Result<IndexedClause<'c>, Memory>
        ensures { IfOk result (λ c. c.tree.now ≡ tree.now) }
    {
        Ok(IndexedClause {
            tree,
            renames: first_renames(alloc, &tree.renames)?,
            exports: first_exports(alloc, &tree.exports)?,
            all: first_all(&tree.exports),
            undefines: name_set(alloc, &tree.undefines)?,
            redefines: name_set(alloc, &tree.redefines)?,
            selects: name_set(alloc, &tree.selects)?,
        })
    }

    /// The first renaming of the name.
    fn rename_of(&self, name: &Name) -> Option<&'c RenamePair>
        ensures { option_map (λ r. r.now) result
            ≡ find (has_old_name name.now) self.now.tree.now.renames.items }
    {
        self.tree.renames.get(self.renames.find(name)?)
    }

    /// The name that a feature of the clause's class has in the heir.
    pub fn final_name<'n>(&self, name: &'n Name) -> &'n Name
    where
        'c: 'n,
        ensures { result.now ≡ the.final_name (parent_view self.now.tree.now) name.now }
    {
        match self.rename_of(name) {
            Some(rename) => &rename.new_name.name,
            None => name,
        }
    }

    /// The first export item that lists the final name.
    fn item_naming(&self, name: &Name) -> Option<&ExportItem>
        ensures { option_map (λ x. export_view x.now) result
            ≡ find (names_item name.now) (map export_view self.now.tree.now.exports.items) }
    {
        self.tree.exports.get(self.exports.find(name)?)
    }

    /// The export item that holds for the final name.
    fn export_item(&self, name: &Name) -> Option<&ExportItem>
        ensures { option_map (λ x. export_view x.now) result
            ≡ the_clients.export_item (parent_view self.now.tree.now) name.now }
    {
        self.item_naming(name).or(self.all)
    }

    /// The clients that the clause gives to the final name.
    fn clients(&self, alloc: Global, name: &Name) -> Result<Option<Clients>, Memory>
        ensures { IfOk result (λ cs. option_map clients_view cs ≡ option_map (λ x. x.clients)
            (the_clients.export_item (parent_view self.now.tree.now) name.now)) }
    {
        match self.export_item(name) {
            Some(item) => Ok(Some(copy_clients(alloc, &item.clients)?)),
            None => Ok(None),
        }
    }

    /// Whether the clause lists the final name as undefined.
    pub fn is_undefined(&self, name: &Name) -> bool
        ensures { result ≡ the.is_undefined (parent_view self.now.tree.now) name.now }
    {
        self.undefines.has(name)
    }

    /// Whether the clause lists the final name as redefined.
    fn is_redefined(&self, name: &Name) -> bool
        ensures { result ≡ the.is_redefined (parent_view self.now.tree.now) name.now }
    {
        self.redefines.has(name)
    }

    /// Whether the clause lists the final name as selected.
    fn is_selected(&self, name: &Name) -> bool
        ensures { result ≡ the.is_selected (parent_view self.now.tree.now) name.now }
    {
        self.selects.has(name)
    }

    /// What the clause makes of the feature.
    pub(crate) fn entry(
        &self,
        alloc: Global,
        feature: &ParentFeature,
    ) -> Result<AdaptedEntry, Memory>
        ensures { IfOk result (λ e. entry_view e
            ≡ adapted (parent_view self.now.tree.now) (feature_view feature.now)) }
    {
        let final_name = self.final_name(&feature.name);
        Ok(AdaptedEntry {
            parent_name: feature.name.copy(alloc)?,
            final_name: final_name.copy(alloc)?,
            clients: self.clients(alloc, final_name)?,
            undefined: self.is_undefined(final_name),
            redefined: self.is_redefined(final_name),
            selected: self.is_selected(final_name),
        })
    }
}
