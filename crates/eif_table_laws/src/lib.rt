//! Laws of classes that break no rule of features, and of the order in which classes are judged. A law is a clause of a
//! function that does nothing; its proof serves other crates as a lemma.
#![tactic(auto)]

ghost use Rattle.eif_table_laws.specs.WholeClasses.{KernelHasNoFault, WholeByParents, WholeIsBound, FaultsAreThoseOfGiven};

/// The kernel's classes break no rule of features.
pub fn kernel_has_no_fault()
    ensures { KernelHasNoFault }
{}

/// The ancestors of a class have no breach where none of its parents has one and none of their
/// ancestors.
pub fn whole_by_parents()
    ensures { WholeByParents }
{}

/// Where no class has a breach, each feature of an ancestor is bound to a name of the class.
pub fn whole_is_bound()
    ensures { WholeIsBound }
{}

/// In whatever order the classes are judged, their faults are those of the given classes.
pub fn faults_are_those_of_given()
    ensures { FaultsAreThoseOfGiven }
{}
