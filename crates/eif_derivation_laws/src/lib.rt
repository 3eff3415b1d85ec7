//! Laws of the phase of derivations: the kernel breaks none of its rules, and its faults are found in
//! any order of inheritance. A law is a clause of a function that does nothing; its proof serves
//! other crates as a lemma.
#![tactic(auto)]

ghost use Rattle.eif_derivation_laws.specs.GivenDerivations.{KernelIsDerived, DerivationsAreOfGiven};

/// The kernel's classes break no rule of derivations.
pub fn kernel_is_derived()
    ensures { KernelIsDerived }
{}

/// The breaches of the phase are those of the derivations of all classes, in any order of
/// inheritance, and those of the actuals that all classes write.
pub fn derivations_are_of_given()
    ensures { DerivationsAreOfGiven }
{}
