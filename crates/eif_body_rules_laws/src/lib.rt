//! Worked examples of the rules of bodies, and a law of facts. Each is a clause of a function that does nothing.
#![tactic(auto)]

ghost use Rattle.eif_body_rules_laws.specs.FactsByTree.{FactsByTree};
ghost use Rattle.eif_body_rules_laws.specs.EntityExamples.{EntityExamples};
ghost use Rattle.eif_body_rules_laws.specs.CallExamples.{PrecursorExamples, NameExamples, QualifiedExamples, ArgumentExamples, UsedExamples};
ghost use Rattle.eif_body_rules_laws.specs.TargetExamples.{VariableExamples, SourceExamples};
ghost use Rattle.eif_body_rules_laws.specs.TestExamples.{TestLocalExamples, WrittenTypeExamples};
ghost use Rattle.eif_body_rules_laws.specs.CreationExamples.{InstructionExamples, ExpressionExamples};
ghost use Rattle.eif_body_rules_laws.specs.OperatorExamples.{OperandExamples};
ghost use Rattle.eif_body_rules_laws.specs.FlowExamples.{ConditionExamples, LocalExamples, ResultExamples};
ghost use Rattle.eif_body_rules_laws.specs.FactExamples.{ToldExamples, RightExamples, ScopeExamples};
ghost use Rattle.eif_body_rules_laws.specs.KnownLocalExamples.{KnownLocalExamples};
ghost use Rattle.eif_body_rules_laws.specs.SystemExamples.{ArgumentTestExamples, SmallSystemExamples};
ghost use Rattle.eif_body_rules_laws.specs.LongTypeExamples.{LongTypeExamples};
ghost use Rattle.eif_body_rules_laws.specs.PlainFactExamples.{AttachedExamples, OpenedExamples};
ghost use Rattle.eif_body_rules_laws.specs.PairExamples.{PairExamples};

/// For each rule of the names of arguments and locals a class that breaks it, with exactly its faults,
/// and one that keeps it.
pub fn entity_examples()
    ensures { EntityExamples }
{}

/// The same for names, calls on a target, their arguments, Precursor, and calls as expressions and as
/// instructions.
pub fn call_examples()
    ensures precursor { PrecursorExamples }
    ensures name { NameExamples }
    ensures qualified { QualifiedExamples }
    ensures argument { ArgumentExamples }
    ensures used { UsedExamples }
{}

/// The same for the targets of assignments and creations, and for sources.
pub fn target_examples()
    ensures variable { VariableExamples }
    ensures source { SourceExamples }
{}

/// The same for object tests: their locals and their written types.
pub fn test_examples()
    ensures test_local { TestLocalExamples }
    ensures written_type { WrittenTypeExamples }
{}

/// The same for creation instructions and creation expressions.
pub fn creation_examples()
    ensures instruction { InstructionExamples }
    ensures expression { ExpressionExamples }
{}

/// The same for operators.
pub fn operator_examples()
    ensures { OperandExamples }
{}

/// The same for conditions, assertions and variants, and for what is surely set.
pub fn flow_examples()
    ensures condition { ConditionExamples }
    ensures local { LocalExamples }
    ensures result { ResultExamples }
{}

/// What conditions tell in each form, and where it is known.
pub fn fact_examples()
    ensures told { ToldExamples }
    ensures right { RightExamples }
    ensures scope { ScopeExamples }
{}

/// What is known of locals along instructions.
pub fn known_local_examples()
    ensures { KnownLocalExamples }
{}

/// Systems of several classes.
pub fn system_examples()
    ensures argument_test { ArgumentTestExamples }
    ensures small_system { SmallSystemExamples }
{}

/// Types with too many names that arise where actuals are put in.
pub fn long_type_examples()
    ensures { LongTypeExamples }
{}

/// The facts of a condition by its tree alone, in each form.
pub fn plain_fact_examples()
    ensures attached { AttachedExamples }
    ensures opened { OpenedExamples }
{}

/// Two pairs of classes that keep all rules.
pub fn pair_examples()
    ensures { PairExamples }
{}

/// What a condition tells is read from its tree, but for the types of the locals of tests.
pub fn facts_by_tree()
    ensures { FactsByTree }
{}
