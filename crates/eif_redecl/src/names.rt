//! The names of a class beside their entries: XLIM.9, VDRD and VDJR.

ghost use Rattle.std.specs.Prelude.{◌≡◌, ◌++◌, List, find, map, slice_get, Some, OnOk};
ghost use Rattle.std.specs.List.{list_any};
ghost use Rattle.std.specs.Option.{option_map};
ghost use Rattle.std.specs.Str.{bytes_eq};
ghost use Rattle.eif_classes.specs.Entries.{Feature};
ghost use Rattle.eif_classes.specs.Features.{features};
ghost use Rattle.eif_classes.specs.Signatures.{SignedEntry, signed_entries_in};
ghost use Rattle.eif_feature_rules.specs.JoinRules as rules;
ghost use Rattle.eif_feature_rules.specs.RedeclarationRules as redeclaration;
ghost use Rattle.eif_redecl.specs.EntryViews as views;
ghost use Rattle.eif_redecl.specs.SeenClauses as clauses;
ghost use Rattle.eif_signatures.specs.DerivedSystems.{classes_in};
ghost use Rattle.eif_system.specs.Lineage.{line_of};
ghost use Rattle.eif_tables.specs.TablesOf.{HasFeature};
ghost use Rattle.eif_tree.specs.View.{class_view, decl_view};
ghost use Rattle.eif_tree.specs.declared.tree.NameAt.{NameAt};

use crate::declared::DeclaredSignature;
use crate::entry::{Heir, SeenEntry};
use crate::groups::EntryGroups;
use crate::joined::JoinedName;
use eif_base::{Code, FaultList, FeatId, Memory, Name};
use eif_signatures::{declared_signature, has_large_type, is_attribute};
use eif_tree::{FeatureDecl, NameAt};
use eif_written::{LentFault, push_fault};

/// Whether a signature of the entries has a type of more names than a type may have.
fn has_large_entry(entries: &[SeenEntry<'_>]) -> bool
    ensures { result ≡ list_any (λ e. rules.has_large_type e.signature)
        (map views.entry_view entries.now) }
{
    'entries: for entry in entries {
        if has_large_type(&entry.signature) {
            return true;
        }
    }
    false
}

/// Where these names have that one first.
fn name_among<'d>(names: &'d [NameAt], name: &Name) -> Option<&'d NameAt>
    ensures { option_map (λ n. n.now) result ≡ find (λ n. bytes_eq n.name name.now) names.now }
{
    'names: for one in names {
        if one.name == *name {
            return Some(one);
        }
    }
    None
}

impl<'u> Heir<'u> {
    /// VDRD.1 to 5: adds the faults of the name that the class declares so.
    fn push_declared_name(
        &self,
        name: &Name,
        decl: &FeatureDecl,
        entries: &[SeenEntry<'_>],
        out: &mut FaultList,
    ) -> Result<(), Memory>
        requires heir { clauses.IsHeir self.now }
        ensures { let u = classes_in self.now.system in let tree = decl_view decl.now in
            (n : NameAt) (es : List SignedEntry)
            → find (λ n. bytes_eq n.name name.now) tree.names ≡ Some n → views.AreSeen entries.now es
            → OnOk result (out.new ≡ out.old
            ++ redeclaration.redeclaration_faults u self.now.class_id.0
            (class_view self.now.class.now) (record { name = n; tree = tree }) es) }
    {
        // there is one: it declares the name
        let Some(name) = name_among(&decl.names, name) else {
            return Err(Memory);
        };
        let system = &self.system;
        let signature = declared_signature(system.alloc, system.universe, self.class, decl)?;
        let declared = DeclaredSignature {
            name,
            is_attribute: is_attribute(&decl.kind),
            signature: &signature,
        };
        self.push_redeclaration_faults(&declared, entries, out)
    }

    /// VDRD.6 and VDJR.1: adds the faults of the name with that number, which the class inherits alone.
    fn push_inherited_name(
        &self,
        feat: FeatId,
        name: &Name,
        entries: &[SeenEntry<'_>],
        out: &mut FaultList,
    ) -> Result<(), Memory>
        requires heir { clauses.IsHeir self.now }
        requires feature { HasFeature self.now.system.tables.now self.now.class_id feat }
        ensures { let u = classes_in self.now.system in let d = self.now.class_id.0 in
            let l = line_of u d in let c = class_view self.now.class.now in (x : Feature)
            → slice_get (features l) feat.0 ≡ Some x → name.now ≡ x.name
            → views.AreSeen entries.now (signed_entries_in u l x.name)
            → OnOk result (out.new ≡ out.old ++ rules.unfit_version u d c (rules.signed_name u l x)
            ++ rules.unequal_join c (rules.signed_name u l x)) }
    {
        let signature = self.system.signature(self.class_id, feat)?;
        let joined = JoinedName {
            name,
            is_effective: self.system.is_effective(self.class_id, feat),
            signature: &signature,
        };
        self.push_join_faults(&joined, entries, out)
    }

    /// Adds the faults of the name with that number. Where a type is too large it is the only one.
    fn push_name_faults(
        &self,
        feat: FeatId,
        entries: &[SeenEntry<'_>],
        out: &mut FaultList,
    ) -> Result<(), Memory>
        requires heir { clauses.IsHeir self.now }
        requires feature { HasFeature self.now.system.tables.now self.now.class_id feat }
        ensures { let u = classes_in self.now.system in let d = self.now.class_id.0 in
            let l = line_of u d in (x : Feature) → slice_get (features l) feat.0 ≡ Some x
            → views.AreSeen entries.now (signed_entries_in u l x.name)
            → OnOk result (out.new ≡ out.old ++ rules.signed_name_faults u d
            (class_view self.now.class.now) (rules.signed_name u l x)) }
    {
        let system = &self.system;
        let name = system.tables.name(self.class_id, feat);
        if has_large_entry(entries) {
            let fault = LentFault::at(self.class, Code::Xlim, 9, self.class.place, name);
            return push_fault(system.alloc, out, &fault);
        }
        match system
            .tables
            .declaration(system.universe, self.class_id, feat)
        {
            Some(decl) => self.push_declared_name(name, decl, entries, out),
            None => self.push_inherited_name(feat, name, entries, out),
        }
    }

    /// Adds the faults of the names of the class beside these entries.
    pub(crate) fn push_names(
        &self,
        groups: &EntryGroups<'_>,
        out: &mut FaultList,
    ) -> Result<(), Memory>
        requires heir { clauses.IsHeir self.now }
        ensures { let u = classes_in self.now.system in let d = self.now.class_id.0 in
            clauses.AreEntries u d groups.now.groups.items
            → OnOk result (out.new ≡ out.old ++ rules.join_faults u (line_of u d)) }
    {
        'names: for number in 0..self.system.tables.count(self.class_id) {
            let feat = FeatId(number);
            // there are some: each name has its list
            let Some(entries) = groups.of(feat) else {
                return Err(Memory);
            };
            self.push_name_faults(feat, entries, out)?;
        }
        Ok(())
    }
}
