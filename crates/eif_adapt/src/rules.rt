//! The rules of a parent clause. Of the rules of one code that a listed name breaks, the first counts.

ghost use Rattle.std.specs.Prelude.{◌≡◌, ◌==◌, not, List, [], ◌∷◌, ◌++◌, map, flat_map, length, IfOk, OnOk};
ghost use Rattle.std.specs.List.{filter_map};
ghost use Rattle.eif_base.specs.declared.fault.Fault.{Fault};
ghost use Rattle.eif_base.specs.declared.place.Place.{Place};
ghost use Rattle.eif_tree.specs.declared.tree.NameAt.{NameAt};
ghost use Rattle.eif_tree.specs.Tree.{ExportT};
ghost use Rattle.eif_tree.specs.View.{export_view, parent_view};
ghost use Rattle.eif_feature_rules.specs.ClauseRules as rules;
ghost use Rattle.eif_feature_rules.specs.RuleForms.{with_earlier};
ghost use Rattle.eif_adapt.specs.Adaptations.{feature_view};
ghost use Rattle.eif_adapt.specs.NamedItems.{IsNameSet};
ghost use Rattle.eif_adapt.specs.Parts.{part_faults, AreJudged, AreAllsJudged};

use crate::clause::Clause;
use eif_base::{Code, Fault, FaultList, Memory, Name, NameSet, Place};
use eif_tree::{ExportItem, NameAt, RenamePair};

/// A part of a clause that lists names.
#[derive(Clone, Copy)]
pub(crate) enum Part {
    Rename,
    Export,
    Undefine,
    Redefine,
    Select,
}

impl Clause<'_> {
    /// Adds the fault at a listed name.
    fn push(&self, out: &mut FaultList, code: Code, case: u8, name: &NameAt) -> Result<(), Memory>
        ensures { OnOk result (out.new
            ≡ out.old ++ rules.fault_at_name self.now.class_name.now code case name.now ∷ []) }
    {
        out.push(Fault {
            code,
            case,
            class: self.class_name.copy(self.alloc)?,
            feature: Name::from_bytes(self.alloc, b"")?,
            place: name.place,
            about: name.name.copy(self.alloc)?,
        })
    }

    /// VHRC: a renamed name is no name of the parent (1), or was renamed before (2).
    fn push_rename_faults(
        &self,
        out: &mut FaultList,
        earlier: &NameSet,
        name: &NameAt,
    ) -> Result<(), Memory>
        ensures { (before : List NameAt) → IsNameSet earlier.now before → OnOk result (out.new
            ≡ out.old ++ rules.rename_faults self.now.class_name.now
            (map feature_view self.now.features.now) before name.now) }
    {
        if !self.sets.parents.has(&name.name) {
            self.push(out, Code::Vhrc, 1, name)
        } else if earlier.has(&name.name) {
            self.push(out, Code::Vhrc, 2, name)
        } else {
            Ok(())
        }
    }

    /// VLEL: an exported name is no final name of the clause (1), or was exported before (2).
    fn push_export_faults(
        &self,
        out: &mut FaultList,
        earlier: &NameSet,
        name: &NameAt,
    ) -> Result<(), Memory>
        ensures { (before : List NameAt) → IsNameSet earlier.now before → OnOk result (out.new
            ≡ out.old ++ rules.export_faults self.now.class_name.now
            (parent_view self.now.indexed.tree.now)
            (map feature_view self.now.features.now) before name.now) }
    {
        if !self.sets.finals.has(&name.name) {
            self.push(out, Code::Vlel, 1, name)
        } else if earlier.has(&name.name) {
            self.push(out, Code::Vlel, 2, name)
        } else {
            Ok(())
        }
    }

    /// VDUS: an undefined name is no final name of the clause (1), was listed before (2), or is
    /// that of an attribute (3) or of a deferred feature (4).
    fn push_undefine_faults(
        &self,
        out: &mut FaultList,
        earlier: &NameSet,
        name: &NameAt,
    ) -> Result<(), Memory>
        ensures { (before : List NameAt) → IsNameSet earlier.now before → OnOk result (out.new
            ≡ out.old ++ rules.undefine_faults self.now.class_name.now
            (parent_view self.now.indexed.tree.now)
            (map feature_view self.now.features.now) before name.now) }
    {
        if !self.sets.finals.has(&name.name) {
            self.push(out, Code::Vdus, 1, name)
        } else if earlier.has(&name.name) {
            self.push(out, Code::Vdus, 2, name)
        } else if self.sets.attributes.has(&name.name) {
            self.push(out, Code::Vdus, 3, name)
        } else if self.sets.deferred.has(&name.name) {
            self.push(out, Code::Vdus, 4, name)
        } else {
            Ok(())
        }
    }

    /// VDRS: a redefined name is no final name of the clause (1), or was listed before (2).
    fn push_redefine_faults(
        &self,
        out: &mut FaultList,
        earlier: &NameSet,
        name: &NameAt,
    ) -> Result<(), Memory>
        ensures { (before : List NameAt) → IsNameSet earlier.now before → OnOk result (out.new
            ≡ out.old ++ rules.redefine_faults self.now.class_name.now
            (parent_view self.now.indexed.tree.now)
            (map feature_view self.now.features.now) before name.now) }
    {
        if !self.sets.finals.has(&name.name) {
            self.push(out, Code::Vdrs, 1, name)
        } else if earlier.has(&name.name) {
            self.push(out, Code::Vdrs, 2, name)
        } else {
            Ok(())
        }
    }

    /// VMSS: a selected name is no final name of the clause (1), or was listed before (2).
    fn push_select_faults(
        &self,
        out: &mut FaultList,
        earlier: &NameSet,
        name: &NameAt,
    ) -> Result<(), Memory>
        ensures { (before : List NameAt) → IsNameSet earlier.now before → OnOk result (out.new
            ≡ out.old ++ rules.select_faults self.now.class_name.now
            (parent_view self.now.indexed.tree.now)
            (map feature_view self.now.features.now) before name.now) }
    {
        if !self.sets.finals.has(&name.name) {
            self.push(out, Code::Vmss, 1, name)
        } else if earlier.has(&name.name) {
            self.push(out, Code::Vmss, 2, name)
        } else {
            Ok(())
        }
    }

    /// Adds the fault of a listed name that stands behind these in its list.
    fn push_name_faults(
        &self,
        out: &mut FaultList,
        part: Part,
        earlier: &NameSet,
        name: &NameAt,
    ) -> Result<(), Memory>
        ensures { (before : List NameAt) → IsNameSet earlier.now before → OnOk result (out.new
            ≡ out.old ++ part_faults part self.now.class_name.now
            (parent_view self.now.indexed.tree.now)
            (map feature_view self.now.features.now) before name.now) }
    {
        match part {
            Part::Rename => self.push_rename_faults(out, earlier, name),
            Part::Export => self.push_export_faults(out, earlier, name),
            Part::Undefine => self.push_undefine_faults(out, earlier, name),
            Part::Redefine => self.push_redefine_faults(out, earlier, name),
            Part::Select => self.push_select_faults(out, earlier, name),
        }
    }

    /// Judges the next name of a list.
    fn judge_name(
        &self,
        out: &mut FaultList,
        part: Part,
        earlier: &mut NameSet,
        name: &NameAt,
    ) -> Result<(), Memory>
        ensures { let judge = part_faults part self.now.class_name.now
            (parent_view self.now.indexed.tree.now) (map feature_view self.now.features.now) in
            (old : List Fault) (before : List NameAt) → AreJudged judge old out.old earlier.old before
            → OnOk result (AreJudged judge old out.new earlier.new (before ++ name.now ∷ [])) }
    {
        self.push_name_faults(out, part, earlier, name)?;
        earlier.insert(&name.name)?;
        Ok(())
    }

    /// Judges the next names of a list.
    fn judge_names(
        &self,
        out: &mut FaultList,
        part: Part,
        earlier: &mut NameSet,
        names: &[NameAt],
    ) -> Result<(), Memory>
        ensures { let judge = part_faults part self.now.class_name.now
            (parent_view self.now.indexed.tree.now) (map feature_view self.now.features.now) in
            (old : List Fault) (before : List NameAt) → AreJudged judge old out.old earlier.old before
            → OnOk result (AreJudged judge old out.new earlier.new (before ++ names.now)) }
    {
        'names: for name in names {
            self.judge_name(out, part, earlier, name)?;
        }
        Ok(())
    }

    /// Adds the faults of a part that is one list of names.
    fn push_list_faults(
        &self,
        out: &mut FaultList,
        part: Part,
        names: &[NameAt],
    ) -> Result<(), Memory>
        ensures { OnOk result (out.new ≡ out.old
            ++ rules.each_listed (part_faults part self.now.class_name.now
            (parent_view self.now.indexed.tree.now) (map feature_view self.now.features.now))
            names.now) }
    {
        let mut earlier = NameSet::new(self.alloc);
        self.judge_names(out, part, &mut earlier, names)?;
        Ok(())
    }

    /// Adds the faults of the renamed names.
    fn push_faults_of_renames(
        &self,
        out: &mut FaultList,
        renames: &[RenamePair],
    ) -> Result<(), Memory>
        ensures { OnOk result (out.new ≡ out.old
            ++ rules.each_listed (rules.rename_faults self.now.class_name.now
            (map feature_view self.now.features.now)) (map (λ r. r.old_name) renames.now)) }
    {
        let mut earlier = NameSet::new(self.alloc);
        'renames: for rename in renames {
            self.judge_name(out, Part::Rename, &mut earlier, &rename.old_name)?;
        }
        Ok(())
    }

    /// Adds the faults of the exported names.
    fn push_faults_of_exports(
        &self,
        out: &mut FaultList,
        exports: &[ExportItem],
    ) -> Result<(), Memory>
        ensures { OnOk result (out.new ≡ out.old
            ++ rules.each_listed (rules.export_faults self.now.class_name.now
            (parent_view self.now.indexed.tree.now) (map feature_view self.now.features.now))
            (flat_map (λ x. x.names) (map export_view exports.now))) }
    {
        let mut earlier = NameSet::new(self.alloc);
        'exports: for item in exports {
            self.judge_names(out, Part::Export, &mut earlier, &item.names)?;
        }
        Ok(())
    }

    /// VLEL.3: `all` stands before in the clause.
    fn push_repeated_all(
        &self,
        out: &mut FaultList,
        is_repeated: bool,
        place: Place,
    ) -> Result<(), Memory>
        ensures { (before : List Place) → is_repeated ≡ not (length before == 0)
            → OnOk result (out.new
            ≡ out.old ++ rules.repeated_all self.now.class_name.now before place) }
    {
        if is_repeated {
            let name = Name::from_bytes(self.alloc, b"all")?;
            self.push(out, Code::Vlel, 3, &NameAt { place, name })?;
        }
        Ok(())
    }

    /// Judges the `all` of the next export item. Gives whether an item so far has it.
    fn judge_all(
        &self,
        out: &mut FaultList,
        has_all: bool,
        item: &ExportItem,
    ) -> Result<bool, Memory>
        ensures { (old : List Fault) (before : List ExportT)
            → AreAllsJudged self.now.class_name.now old out.old has_all before
            → IfOk result (λ found. AreAllsJudged self.now.class_name.now old out.new found
            (before ++ export_view item.now ∷ [])) }
    {
        match item.all {
            Some(place) => {
                self.push_repeated_all(out, has_all, place)?;
                Ok(true)
            }
            None => Ok(has_all),
        }
    }

    /// Adds the faults of each `all` of the export items.
    fn push_faults_of_alls(&self, out: &mut FaultList, exports: &[ExportItem]) -> Result<(), Memory>
        ensures { OnOk result (out.new ≡ out.old
            ++ flat_map (λ x. rules.repeated_all self.now.class_name.now x.0 x.1)
            (with_earlier (filter_map (λ x. x.all) (map export_view exports.now)))) }
    {
        let mut has_all = false;
        'exports: for item in exports {
            has_all = self.judge_all(out, has_all, item)?;
        }
        Ok(())
    }

    /// Adds all faults of the clause.
    pub fn push_faults(&self, out: &mut FaultList) -> Result<(), Memory>
        ensures { OnOk result (out.new ≡ out.old ++ rules.clause_faults self.now.class_name.now
            (parent_view self.now.indexed.tree.now) (map feature_view self.now.features.now)) }
    {
        let tree = self.indexed.tree;
        self.push_faults_of_renames(out, &tree.renames)?;
        self.push_faults_of_exports(out, &tree.exports)?;
        self.push_faults_of_alls(out, &tree.exports)?;
        self.push_list_faults(out, Part::Undefine, &tree.undefines)?;
        self.push_list_faults(out, Part::Redefine, &tree.redefines)?;
        self.push_list_faults(out, Part::Select, &tree.selects)?;
        Ok(())
    }
}
