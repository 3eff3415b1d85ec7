//! What runs ask of types holds where no rule of types is broken. A law is a clause of a function that
//! does nothing; its proof serves other crates as a lemma.
#![tactic(auto)]

ghost use Rattle.eif_run_types.specs.LawfulTypes.{TypesAreLawful};

/// In a hierarchy whose parent clauses are valid and whose kernel is as it is given, closed types, and
/// types of a class with actuals put in, are as runs ask.
pub fn types_are_lawful()
    ensures { TypesAreLawful }
{}
