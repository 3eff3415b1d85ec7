ghost use Rattle.std.specs.Prelude.{◌≡◌, ◌<◌, ℕ, List, length, slice_get, Some, IfOk};
ghost use Rattle.std.specs.Option.{option_and_then, option_map};
ghost use Rattle.eif_classes.specs.Entries as entries;
ghost use Rattle.eif_feature_rules.specs.DeclarationRules.{is_kept};
ghost use Rattle.eif_heirs.specs.Clauses.{ups_in, IsClause, entry_at};
ghost use Rattle.eif_heirs.specs.EntryParts as parts;
ghost use Rattle.eif_heirs.specs.Heirs.{IsHeir};
ghost use Rattle.eif_rows.specs.Matched.{Match};
ghost use Rattle.eif_rows.specs.Systems.{IsSystem};
ghost use Rattle.eif_system.specs.Inheritance as inheritance;
ghost use Rattle.eif_tree.specs.Tree.{ClassT};
ghost use Rattle.eif_tree.specs.View.{class_view};

use crate::class_names::{all_final_numbers, class_names, declared_numbers};
use crate::clauses::Clause;
use crate::declared::{DeclaredName, declared_names};
use crate::sources::name_sources;
use eif_adapt::AdaptedEntry;
use eif_base::{ClassId, FeatId, Memory, Name};
use eif_rows::{FeatureRow, Version};
use eif_tree::{ClassTree, Clients};
use std::alloc::Global;

/// An entry of the class: the number of a parent clause, from 0, and a feature of its class.
#[derive(Clone, Copy)]
pub struct EntryId {
    pub clause: usize,
    pub feat: FeatId,
}

/// What a name of the class stands for: the number of its first declaration among the declared names,
/// if there is one, and its entries in their order.
#[derive(Drop)]
pub struct NameSources {
    pub declared: Option<usize>,
    pub entries: Vec<EntryId>,
}

/// A class while its features are judged. Its names stand in the order of their bytes. `finals` has
/// for each clause the numbers of the names that the features of its class have here, and `sources`
/// for each name what it stands for.
#[derive(Drop)]
pub struct Heir<'u> {
    pub class_id: ClassId,
    pub tree: &'u ClassTree,
    pub clauses: Vec<Clause<'u>>,
    pub declared: Vec<DeclaredName<'u>>,
    pub names: Vec<Name>,
    pub finals: Vec<Vec<FeatId>>,
    pub sources: Vec<NameSources>,
}

impl<'u> Heir<'u> {
    /// The class with that number and that text, over its clauses.
    pub fn of(
        alloc: Global,
        class_id: ClassId,
        tree: &'u ClassTree,
        clauses: Vec<Clause<'u>>,
    ) -> Result<Heir<'u>, Memory>
        ensures class { IfOk result (λ h. h.class_id ≡ class_id) }
        ensures tree { IfOk result (λ h. h.tree.now ≡ tree.now) }
        ensures heir { IfOk result (λ h. (u : List ClassT) → IsSystem u
            → slice_get u class_id.0 ≡ Some (class_view tree.now)
            → Match (IsClause u (class_view tree.now)) clauses.entry.items
            (inheritance.clauses (class_view tree.now))
            → IsHeir u h) }
    {
        let declared = declared_names(alloc, tree)?;
        let names = class_names(alloc, &declared, &clauses)?;
        let numbers = declared_numbers(alloc, &names, &declared)?;
        let finals = all_final_numbers(alloc, &names, &clauses)?;
        let sources = name_sources(alloc, names.len(), &numbers, &finals)?;
        Ok(Heir {
            class_id,
            tree,
            clauses,
            declared,
            names,
            finals,
            sources,
        })
    }

    // What the parent has under the entry's name there.
    pub(crate) fn parent_row(&self, entry: EntryId) -> Option<&FeatureRow>
        ensures { option_map (λ r. r.now) result ≡ parts.row_at self.now entry }
    {
        match self.clauses.get(entry.clause) {
            Some(clause) => clause.row.features.get(entry.feat.0 as usize),
            None => None,
        }
    }

    // What the clause makes of it.
    fn adapted(&self, entry: EntryId) -> Option<&AdaptedEntry>
        ensures { option_map (λ a. a.now) result ≡ parts.adapted_at self.now entry }
    {
        match self.clauses.get(entry.clause) {
            Some(clause) => clause.adapted.get(entry.feat.0 as usize),
            None => None,
        }
    }

    // The version of the entry in the parent.
    pub(crate) fn version(&self, entry: EntryId) -> Version
        ensures { result ≡ parts.version_at self.now entry }
    {
        match self.parent_row(entry) {
            Some(row) => row.version,
            None => Version::Deferred,
        }
    }

    // The clients of the export item that holds for the entry.
    pub(crate) fn exported_to(&self, entry: EntryId) -> Option<&Clients>
        ensures { option_map (λ c. c.now) result
            ≡ option_and_then (λ a. a.clients) (parts.adapted_at self.now entry) }
    {
        match self.adapted(entry) {
            Some(adapted) => adapted.clients.as_ref(),
            None => None,
        }
    }

    fn is_undefined(&self, entry: EntryId) -> bool
        ensures { result ≡ parts.is_undefined_at self.now entry }
    {
        match self.adapted(entry) {
            Some(adapted) => adapted.undefined,
            None => false,
        }
    }

    fn is_redefined(&self, entry: EntryId) -> bool
        ensures { result ≡ parts.is_redefined_at self.now entry }
    {
        match self.adapted(entry) {
            Some(adapted) => adapted.redefined,
            None => false,
        }
    }

    // Whether it has a version in the parent, and is not undefined.
    pub(crate) fn is_lasting(&self, entry: EntryId) -> bool
        ensures { result ≡ parts.lasts_at self.now entry }
    {
        !self.version(entry).is_deferred() && !self.is_undefined(entry)
    }

    /// Whether the entry is effective in the parent and not undefined.
    pub fn lasts(&self, entry: EntryId) -> bool
        ensures { (u : List ClassT) (e : entries.Entry) → IsHeir u self.now
            → entry_at (ups_in u (class_view self.now.tree.now)) entry ≡ Some e
            → result ≡ entries.lasts e }
    {
        self.is_lasting(entry)
    }

    /// Whether the entry is effective in the parent, not undefined and not redefined.
    pub fn is_kept(&self, entry: EntryId) -> bool
        ensures { (u : List ClassT) (e : entries.Entry) → IsHeir u self.now
            → entry_at (ups_in u (class_view self.now.tree.now)) entry ≡ Some e
            → result ≡ is_kept e }
    {
        self.is_lasting(entry) && !self.is_redefined(entry)
    }
}
