//! The entries of a class, clause by clause.

ghost use Rattle.std.specs.Prelude.{◌≡◌, ◌∷◌, [], ◌++◌, ◌&&◌, not, List, flat_map, map, slice_get, Some, IfOk, OnOk};
ghost use Rattle.eif_classes.specs.Entries as entries;
ghost use Rattle.eif_classes.specs.Features.{features};
ghost use Rattle.eif_classes.specs.Names.{final_name, is_undefined};
ghost use Rattle.eif_classes.specs.Resolution.{clause_actuals};
ghost use Rattle.eif_classes.specs.Signatures as signatures;
ghost use Rattle.eif_redecl.specs.EntryViews as views;
ghost use Rattle.eif_redecl.specs.SeenClauses as clauses;
ghost use Rattle.eif_rows.specs.Matched.{Match};
ghost use Rattle.eif_signatures.specs.DerivedSystems.{classes_in};
ghost use Rattle.eif_system.specs.Lineage.{line_of};
ghost use Rattle.eif_tables.specs.TablesOf.{HasFeature};
ghost use Rattle.eif_tree.specs.View.{class_view, parent_view};

use crate::entry::{Heir, SeenEntry};
use crate::groups::EntryGroups;
use eif_adapt::IndexedClause;
use eif_base::{ClassId, FeatId, Memory, Name};
use eif_tree::ParentClause;

impl<'u> Heir<'u> {
    /// Whether that feature of the clause's class is effective there, and not undefined by the final name.
    fn lasts(&self, clause: &IndexedClause<'u>, parent: ClassId, feat: FeatId, name: &Name) -> bool
        requires heir { clauses.IsHeir self.now }
        requires feature { HasFeature self.now.system.tables.now parent feat }
        ensures { (x : entries.Feature)
            → slice_get (features (line_of (classes_in self.now.system) parent.0)) feat.0 ≡ Some x
            → result ≡ (entries.is_effective x.origin
            && not (is_undefined (parent_view clause.now.tree.now) name.now)) }
    {
        self.system.is_effective(parent, feat) && !clause.is_undefined(name)
    }

    /// The entry of the clause for that feature of its class, which has the final name.
    fn seen_entry(
        &self,
        clause: &IndexedClause<'u>,
        parent: ClassId,
        feat: FeatId,
        name: &Name,
    ) -> Result<SeenEntry<'u>, Memory>
        requires heir { clauses.IsHeir self.now }
        requires clause { clauses.IsClause (classes_in self.now.system) (class_view self.now.class.now)
            (parent_view clause.now.tree.now) parent }
        requires feature { HasFeature self.now.system.tables.now parent feat }
        ensures { let u = classes_in self.now.system in let p = parent_view clause.now.tree.now in
            let l = line_of u parent.0 in (x : entries.Feature) (t : signatures.Signature)
            → slice_get (features l) feat.0 ≡ Some x → signatures.signature u l x.name ≡ Some t
            → name.now ≡ final_name p x.name → IfOk result (λ e. views.entry_view e ≡ views.seen
            (signatures.signed (clause_actuals u (class_view self.now.class.now) p)
            (entries.entry p x) t)) }
    {
        let system = &self.system;
        let (class, source) = system.tables.signature_source(parent, feat);
        Ok(SeenEntry {
            clause: clause.tree,
            is_field: system.is_field(parent, feat),
            lasts: self.lasts(clause, parent, feat, name),
            signature: system.signature_above(self.class_id, class, source)?,
        })
    }

    /// Puts the entry of the clause for that feature of its class among those of its final name.
    fn add_entry(
        &self,
        clause: &IndexedClause<'u>,
        parent: ClassId,
        feat: FeatId,
        groups: &mut EntryGroups<'u>,
    ) -> Result<(), Memory>
        requires heir { clauses.IsHeir self.now }
        requires clause { clauses.IsClause (classes_in self.now.system) (class_view self.now.class.now)
            (parent_view clause.now.tree.now) parent }
        requires feature { HasFeature self.now.system.tables.now parent feat }
        ensures { let u = classes_in self.now.system in let d = self.now.class_id.0 in
            let l = line_of u parent.0 in
            (x : entries.Feature) (es : List signatures.SignedEntry)
            → slice_get (features l) feat.0 ≡ Some x
            → clauses.AreGroups u d groups.old.groups.items es
            → OnOk result (clauses.AreGroups u d groups.new.groups.items
            (es ++ clauses.signed_by u (class_view self.now.class.now)
            (parent_view clause.now.tree.now) l (x ∷ []))) }
    {
        let tables = self.system.tables;
        let name = clause.final_name(tables.name(parent, feat));
        // it is one: a class has the names that its clauses give
        let Some(number) = tables.find(self.class_id, name) else {
            return Err(Memory);
        };
        let entry = self.seen_entry(clause, parent, feat, name)?;
        groups.add(number, entry)
    }

    /// Puts the entries of the clause among those of their names.
    fn add_clause(
        &self,
        tree: &'u ParentClause,
        parent: ClassId,
        groups: &mut EntryGroups<'u>,
    ) -> Result<(), Memory>
        requires heir { clauses.IsHeir self.now }
        requires clause { clauses.IsClause (classes_in self.now.system) (class_view self.now.class.now)
            (parent_view tree.now) parent }
        ensures { let u = classes_in self.now.system in let d = self.now.class_id.0 in
            (es : List signatures.SignedEntry)
            → clauses.AreGroups u d groups.old.groups.items es
            → OnOk result (clauses.AreGroups u d groups.new.groups.items
            (es ++ clauses.signed_of u (class_view self.now.class.now) (parent_view tree.now))) }
    {
        let clause = IndexedClause::new(self.system.alloc, tree)?;
        'features: for feat in 0..self.system.tables.count(parent) {
            self.add_entry(&clause, parent, FeatId(feat), groups)?;
        }
        Ok(())
    }

    /// The entries of the clauses, whose classes have these numbers, by their names.
    fn entries_by(&self, parents: &[ClassId]) -> Result<EntryGroups<'u>, Memory>
        requires heir { clauses.IsHeir self.now }
        requires parents { Match (clauses.IsClause (classes_in self.now.system)
            (class_view self.now.class.now)) (map parent_view self.now.clauses.now) parents.now }
        ensures { let u = classes_in self.now.system in IfOk result
            (λ g. clauses.AreGroups u self.now.class_id.0 g.groups.items
            (flat_map (clauses.signed_of u (class_view self.now.class.now))
            (map parent_view self.now.clauses.now))) }
    {
        let count = self.system.tables.count(self.class_id);
        let mut groups = EntryGroups::new(self.system.alloc, count)?;
        'clauses: for (tree, parent) in self.clauses.iter().zip(parents) {
            self.add_clause(tree, *parent, &mut groups)?;
        }
        Ok(groups)
    }

    /// The entries of the class, by their names.
    pub(crate) fn entries(&self) -> Result<EntryGroups<'u>, Memory>
        requires { clauses.IsHeir self.now }
        ensures { let u = classes_in self.now.system in let d = self.now.class_id.0 in
            IfOk result (λ g. clauses.AreEntries u d g.groups.items) }
    {
        self.entries_by(self.system.universe.parents(self.class_id))
    }
}
