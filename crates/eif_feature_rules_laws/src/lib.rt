//! Worked examples of the rules of features, of derivations and of signatures. An example is a clause of a function
//! that does nothing.
#![tactic(auto)]

ghost use Rattle.eif_feature_rules_laws.specs.ClauseExamples.{RenameExamples, ExportExamples, UndefineExamples, ListExamples};
ghost use Rattle.eif_feature_rules_laws.specs.CreatorRuleExamples.{CreationExamples, RootExamples};
ghost use Rattle.eif_feature_rules_laws.specs.DeclarationExamples.{DeclarationExamples, ConstantExamples, OriginExamples, LimitExamples, JudgedExamples};
ghost use Rattle.eif_feature_rules_laws.specs.DerivationExamples.{AncestorExamples, ActualExamples};
ghost use Rattle.eif_feature_rules_laws.specs.RedeclarationExamples.{RedeclarationExamples, JoinExamples, SizeExamples};
ghost use Rattle.eif_feature_rules_laws.specs.VersionExamples.{SelectionExamples, ReplicationExamples};
ghost use Rattle.eif_feature_rules_laws.specs.WorkedSystems.{WorkedSystems};
ghost use Rattle.eif_feature_rules_laws.specs.WorkedVersions.{WorkedVersions};

/// The rules of one parent clause: what it renames, exports, undefines, redefines and selects.
pub fn clause_examples()
    ensures renames { RenameExamples }
    ensures exports { ExportExamples }
    ensures undefines { UndefineExamples }
    ensures lists { ListExamples }
{}

/// The rules of what a class declares beside what it inherits, of constants, of the origins of names
/// and of how many names there are, of which only the count is shown; a class below one with a breach
/// is not judged.
pub fn declaration_examples()
    ensures declarations { DeclarationExamples }
    ensures constants { ConstantExamples }
    ensures origins { OriginExamples }
    ensures limits { LimitExamples }
    ensures judged { JudgedExamples }
{}

/// The rules of versions: selected ones, and bodies that have several names.
pub fn version_examples()
    ensures selection { SelectionExamples }
    ensures replication { ReplicationExamples }
{}

/// The rules of derivations: what a class gives the formals of its ancestors, and actuals beside
/// constraints.
pub fn derivation_examples()
    ensures ancestors { AncestorExamples }
    ensures actuals { ActualExamples }
{}

/// The rules of signatures: redeclarations, names that join several entries, and sizes.
pub fn redeclaration_examples()
    ensures redeclarations { RedeclarationExamples }
    ensures joins { JoinExamples }
    ensures sizes { SizeExamples }
{}

/// The rules of creators and of the root procedure.
pub fn creation_examples()
    ensures creators { CreationExamples }
    ensures roots { RootExamples }
{}

/// Whole systems, each with exactly what the first of the three phases finds that finds anything.
pub fn worked_systems()
    ensures versions { WorkedVersions }
    ensures systems { WorkedSystems }
{}
