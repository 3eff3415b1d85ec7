//! Systems that break no rule of the language, so that the law of soundness speaks of something. A law is
//! a clause of a function that does nothing.
#![tactic(auto)]

ghost use Rattle.eif_valid_examples.specs.ValidExamples.{ExamplesAreValid};

/// A generic list whose head is not set yet while it is made, an heir with a precursor, a renamed and a
/// selected feature, and a local that is tested against Void in a loop beside an object test: they break
/// no rule, have the form of class texts, and run to their end.
pub fn examples_are_valid()
    ensures { ExamplesAreValid }
{}
