//! Worked examples of creation flow. An example is a clause of a function that does nothing.
#![tactic(auto)]

ghost use Rattle.eif_flow_rules.specs.MetNeeds.{NeedsAreMet};
ghost use Rattle.eif_flow_rules.specs.SummaryLaws.{FarEnough};
ghost use Rattle.eif_flow_rules_laws.specs.CreatorExamples.{BranchExamples, CurrentExamples, LoopExamples, SeveralExamples, InheritedExamples};
ghost use Rattle.eif_flow_rules_laws.specs.GenericExamples.{GenericExamples};
ghost use Rattle.eif_flow_rules_laws.specs.OrderExamples.{OrderExamples, AssertionExamples};
ghost use Rattle.eif_flow_rules_laws.specs.SelfCallExamples.{ParentExamples, CircleExamples, OperandExamples};
ghost use Rattle.eif_flow_rules_laws.specs.NameExamples.{HeirExamples, HiddenExamples};
ghost use Rattle.eif_flow_rules_laws.specs.TestLocalsAgree.{TestLocalsAgree};

/// What a creator must set before it ends, and before it hands out `Current`.
pub fn creator_examples()
    ensures branches { BranchExamples }
    ensures current { CurrentExamples }
    ensures loops { LoopExamples }
    ensures several { SeveralExamples }
    ensures inherited { InheritedExamples }
    ensures generic { GenericExamples }
{}

/// In which order what a creator does counts, and that assertions do not.
pub fn order_examples()
    ensures order { OrderExamples }
    ensures assertions { AssertionExamples }
{}

/// What calls on the same object need and set: bodies of a parent, bodies that lead to themselves,
/// and operands that may not run.
pub fn call_examples()
    ensures parents { ParentExamples }
    ensures circles { CircleExamples }
    ensures operands { OperandExamples }
{}

/// Which names in a body are features of the class, and which are none in an heir.
pub fn name_examples()
    ensures heirs { HeirExamples }
    ensures hidden { HiddenExamples }
{}

/// Of bodies that call each other alone: a search for paths that is as long as there are bodies finds
/// the paths of any length, and calls unfolded as deep as that are unfolded far enough.
pub fn summaries_by_paths()
    ensures { FarEnough }
{}

/// Where what a body needs is set before it, each of its nodes finds what it needs, and the body sets
/// what is said of it. So does a creator of which nothing is told.
pub fn needs_are_met()
    ensures { NeedsAreMet }
{}

/// The test locals that a flow takes as usable are those of which the facts of an expression tell, by
/// its tree.
pub fn test_locals_agree()
    ensures { TestLocalsAgree }
{}
