//! A declared name beside its entries: VDRD.1 to 5.

ghost use Rattle.std.specs.Prelude.{◌≡◌, ◌++◌, List, flat_map, map, OnOk};
ghost use Rattle.eif_classes.specs.Signatures as signatures;
ghost use Rattle.eif_feature_rules.specs.RedeclarationRules as rules;
ghost use Rattle.eif_feature_rules.specs.RuleForms as forms;
ghost use Rattle.eif_redecl.specs.EntryViews as views;
ghost use Rattle.eif_signatures.specs.SignatureViews.{signature_view};
ghost use Rattle.eif_tree.specs.Tree.{ClassT};
ghost use Rattle.eif_tree.specs.View.{class_view};
ghost use Rattle.eif_types.specs.TypeTables.{AreTypesOf};

use crate::entry::{Heir, SeenEntry};
use eif_base::{Code, FaultList, Memory};
use eif_signatures::{
    Signature, are_of_one_form, has_conforming_result, have_equal_arguments, have_equal_count,
    have_equal_results,
};
use eif_tree::NameAt;
use eif_written::{LentFault, push_fault};

/// A name that a class declares: its place in the declaration, whether this is of an attribute, and the
/// signature that it writes.
#[derive(Clone, Copy)]
pub struct DeclaredSignature<'u> {
    pub name: &'u NameAt,
    pub is_attribute: bool,
    pub signature: &'u Signature,
}

impl<'u> Heir<'u> {
    /// The number of the first rule that the declaration breaks beside the entry.
    fn broken_case(&self, declared: &DeclaredSignature<'_>, entry: &SeenEntry<'_>) -> Option<u8>
        ensures { (u : List ClassT) → AreTypesOf u self.now.system.types.now → result
            ≡ views.broken_case u self.now.class_id.0 declared.now.is_attribute
            (signature_view declared.now.signature.now) entry.now.is_field
            (signature_view entry.now.signature) }
    {
        let one = declared.signature;
        let two = &entry.signature;
        if !have_equal_count(one, two) {
            Some(1)
        } else if !have_equal_arguments(one, two) {
            Some(2)
        } else if !are_of_one_form(one, two) {
            Some(3)
        } else if !has_conforming_result(self.system.types, self.class_id, one, two) {
            Some(4)
        } else if entry.is_field && !(declared.is_attribute && have_equal_results(one, two)) {
            Some(5)
        } else {
            None
        }
    }

    /// Adds the fault of the declaration beside the entry.
    fn push_beside(
        &self,
        declared: &DeclaredSignature<'_>,
        entry: &SeenEntry<'_>,
        out: &mut FaultList,
    ) -> Result<(), Memory>
        ensures { (u : List ClassT) → AreTypesOf u self.now.system.types.now → OnOk result
            (out.new ≡ out.old ++ views.faults_beside u self.now.class_id.0
            (class_view self.now.class.now) declared.now.name.now declared.now.is_attribute
            (signature_view declared.now.signature.now) (views.entry_view entry.now)) }
    {
        match self.broken_case(declared, entry) {
            Some(case) => push_fault(
                self.system.alloc,
                out,
                &LentFault::within(
                    self.class,
                    &declared.name.name,
                    Code::Vdrd,
                    case,
                    declared.name.place,
                    &entry.clause.parent.name,
                ),
            ),
            None => Ok(()),
        }
    }

    /// Adds the fault of the declaration beside each of the entries.
    fn push_beside_each(
        &self,
        declared: &DeclaredSignature<'_>,
        entries: &[SeenEntry<'_>],
        out: &mut FaultList,
    ) -> Result<(), Memory>
        ensures { (u : List ClassT) → AreTypesOf u self.now.system.types.now → OnOk result
            (out.new ≡ out.old ++ flat_map (views.faults_beside u self.now.class_id.0
            (class_view self.now.class.now) declared.now.name.now declared.now.is_attribute
            (signature_view declared.now.signature.now)) (map views.entry_view entries.now)) }
    {
        'entries: for entry in entries {
            self.push_beside(declared, entry, out)?;
        }
        Ok(())
    }

    /// VDRD.1 to 5: adds the faults of the declared name beside its entries. Of several rules that it
    /// breaks beside one entry the first counts.
    pub fn push_redeclaration_faults(
        &self,
        declared: &DeclaredSignature<'_>,
        entries: &[SeenEntry<'_>],
        out: &mut FaultList,
    ) -> Result<(), Memory>
        ensures { (u : List ClassT) (x : forms.DeclaredName) (es : List signatures.SignedEntry)
            → AreTypesOf u self.now.system.types.now
            → views.IsDeclared u (class_view self.now.class.now) declared.now x
            → views.AreSeen entries.now es → OnOk result (out.new ≡ out.old
            ++ rules.redeclaration_faults u self.now.class_id.0 (class_view self.now.class.now) x es) }
    {
        self.push_beside_each(declared, entries, out)?;
        Ok(())
    }
}
