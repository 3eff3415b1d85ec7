//! A name that is not declared beside its entries: VDRD.6 and VDJR.1.

ghost use Rattle.std.specs.Prelude.{◌≡◌, ◌++◌, not, ◌&&◌, List, map, OnOk};
ghost use Rattle.std.specs.List.{list_all};
ghost use Rattle.eif_base.specs.declared.code.Code.TheVariants as code;
ghost use Rattle.eif_feature_rules.specs.JoinRules as rules;
ghost use Rattle.eif_redecl.specs.EntryViews as views;
ghost use Rattle.eif_rules.specs.FaultForms.{fault_at, fault_where};
ghost use Rattle.eif_signatures.specs.SignatureViews.{signature_view};
ghost use Rattle.eif_tree.specs.Tree.{ClassT};
ghost use Rattle.eif_tree.specs.View.{class_view};
ghost use Rattle.eif_types.specs.TypeTables.{AreTypesOf};

use crate::entry::{Heir, SeenEntry};
use eif_base::{Code, FaultList, Memory, Name};
use eif_signatures::{Signature, are_equal, fits};
use eif_written::{LentFault, push_where};

/// A name that the class does not declare: its signature, and whether it has a version.
#[derive(Clone, Copy)]
pub struct JoinedName<'u> {
    pub name: &'u Name,
    pub is_effective: bool,
    pub signature: &'u Signature,
}

/// Whether the entries have equal signatures.
fn have_one_signature(entries: &[SeenEntry<'_>]) -> bool
    ensures { result ≡ views.have_one_signature (map views.entry_view entries.now) }
{
    let Some((first, others)) = entries.split_first() else {
        return true;
    };
    'others: for other in others {
        if !are_equal(&first.signature, &other.signature) {
            return false;
        }
    }
    true
}

impl<'u> Heir<'u> {
    /// Whether the signature fits each entry that does not last.
    fn fits_others(&self, signature: &Signature, entries: &[SeenEntry<'_>]) -> bool
        ensures { (u : List ClassT) → AreTypesOf u self.now.system.types.now → result
            ≡ list_all (views.fits_beside u self.now.class_id.0 (signature_view signature.now))
            (map views.entry_view entries.now) }
    {
        'entries: for entry in entries {
            if !entry.lasts
                && !fits(
                    self.system.types,
                    self.class_id,
                    signature,
                    &entry.signature,
                )
            {
                return false;
            }
        }
        true
    }

    /// VDRD.6: the name has a version, and its signature does not fit an entry that is deferred or
    /// undefined.
    fn push_unfit_version(
        &self,
        joined: &JoinedName<'_>,
        entries: &[SeenEntry<'_>],
        out: &mut FaultList,
    ) -> Result<(), Memory>
        ensures { (u : List ClassT) → AreTypesOf u self.now.system.types.now → OnOk result
            (out.new ≡ out.old ++ fault_where (joined.now.is_effective && not (list_all
            (views.fits_beside u self.now.class_id.0 (signature_view joined.now.signature.now))
            (map views.entry_view entries.now)))
            (fault_at (class_view self.now.class.now) code.Vdrd 6
            (class_view self.now.class.now).place joined.now.name.now)) }
    {
        let is_broken = joined.is_effective && !self.fits_others(joined.signature, entries);
        let fault = LentFault::at(self.class, Code::Vdrd, 6, self.class.place, joined.name);
        push_where(self.system.alloc, out, is_broken, &fault)
    }

    /// VDJR.1: the name has no version, and two of its entries have unequal signatures.
    fn push_unequal_join(
        &self,
        joined: &JoinedName<'_>,
        entries: &[SeenEntry<'_>],
        out: &mut FaultList,
    ) -> Result<(), Memory>
        ensures { OnOk result (out.new ≡ out.old ++ fault_where (not joined.now.is_effective
            && not (views.have_one_signature (map views.entry_view entries.now)))
            (fault_at (class_view self.now.class.now) code.Vdjr 1
            (class_view self.now.class.now).place joined.now.name.now)) }
    {
        let is_broken = !joined.is_effective && !have_one_signature(entries);
        let fault = LentFault::at(self.class, Code::Vdjr, 1, self.class.place, joined.name);
        push_where(self.system.alloc, out, is_broken, &fault)
    }

    /// VDRD.6 and VDJR.1: adds the faults of the name beside its entries.
    pub fn push_join_faults(
        &self,
        joined: &JoinedName<'_>,
        entries: &[SeenEntry<'_>],
        out: &mut FaultList,
    ) -> Result<(), Memory>
        ensures { (u : List ClassT) (x : rules.SignedName) → AreTypesOf u self.now.system.types.now
            → views.IsJoined joined.now entries.now x
            → OnOk result (out.new ≡ out.old
            ++ rules.unfit_version u self.now.class_id.0 (class_view self.now.class.now) x
            ++ rules.unequal_join (class_view self.now.class.now) x) }
    {
        self.push_unfit_version(joined, entries, out)?;
        self.push_unequal_join(joined, entries, out)?;
        Ok(())
    }
}
