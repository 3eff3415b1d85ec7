//! What runs ask of creation and of the root holds where no rule up to those of signatures and none of
//! creation is broken, and features and types are as runs ask. A law is a clause of a function that does
//! nothing; its proof serves other crates as a lemma.
#![tactic(auto)]

ghost use Rattle.eif_run_creation.specs.LawfulCreation.{CreationIsLawful, RootIsLawful};

/// A creator needs no field and sets each; what is said of a body's needs and sets holds of its text.
pub fn creation_is_lawful()
    ensures { CreationIsLawful }
{}

/// The root class may have instances, and the root procedure is a creator of it without arguments.
pub fn root_is_lawful()
    ensures { RootIsLawful }
{}
