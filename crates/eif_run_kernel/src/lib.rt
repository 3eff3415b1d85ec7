//! What runs ask of the kernel's classes and of types holds where no rule of the universe, of features
//! and of derivations is broken. A law is a clause of a function that does nothing; its proof serves
//! other crates as a lemma.
#![tactic(auto)]

ghost use Rattle.eif_run_kernel.specs.LawfulKernel.{KernelIsLawful, TypesHold};

/// No class inherits from INTEGER, BOOLEAN, CHARACTER, STRING or ARRAY, which have no fields.
pub fn kernel_is_lawful()
    ensures { KernelIsLawful }
{}

/// Closed types, and types of a class with actuals put in, are as runs ask.
pub fn types_hold()
    ensures { TypesHold }
{}
