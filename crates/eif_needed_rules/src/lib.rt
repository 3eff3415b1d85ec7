//! Each rule that soundness rests on is needed: a system breaks it alone, and its run goes wrong. A law
//! is a clause of a function that does nothing.
#![tactic(auto)]

ghost use Rattle.eif_needed_rules.specs.CallsNeeded.{CallsNeeded};
ghost use Rattle.eif_needed_rules.specs.CreationNeeded.{CreationNeeded};
ghost use Rattle.eif_needed_rules.specs.FeaturesNeeded.{FeaturesNeeded};
ghost use Rattle.eif_needed_rules.specs.FlowNeeded.{FlowNeeded};
ghost use Rattle.eif_needed_rules.specs.HarmlessRules.{HarmlessRules};
ghost use Rattle.eif_needed_rules.specs.SignaturesNeeded.{SignaturesNeeded};
ghost use Rattle.eif_needed_rules.specs.TestsNeeded.{TestsNeeded};

/// The rules of features and of derivations: clashes, selection, deferred names, constants, actuals.
pub fn features_need_rules()
    ensures { FeaturesNeeded }
{}

/// The rules of signatures, creators and the root procedure.
pub fn signatures_need_rules()
    ensures { SignaturesNeeded }
{}

/// The rules of names, calls, targets, operands and conditions in bodies.
pub fn calls_need_rules()
    ensures { CallsNeeded }
{}

/// The rules of the locals of object tests.
pub fn tests_need_rules()
    ensures { TestsNeeded }
{}

/// The rules of creation instructions and expressions.
pub fn creations_need_rules()
    ensures { CreationNeeded }
{}

/// The rules of locals, `Result` and fields that are not surely set.
pub fn flow_needs_rules()
    ensures { FlowNeeded }
{}

/// Some rules that soundness does not rest on: a system that breaks one alone runs to its end.
pub fn harmless_rules()
    ensures { HarmlessRules }
{}
