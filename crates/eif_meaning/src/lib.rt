//! What a run of a system does, and laws of runs.
#![tactic(auto)]

ghost use Rattle.eif_meaning.specs.BindingRuns.{BindingRuns};
ghost use Rattle.eif_meaning.specs.BoundedRuns.{BoundedRuns};
ghost use Rattle.eif_meaning.specs.FirstRuns.{FirstRuns};
ghost use Rattle.eif_meaning.specs.GenericRuns.{GenericRuns};
ghost use Rattle.eif_meaning.specs.Growth.{RunsGrow};
ghost use Rattle.eif_meaning.specs.HolderRuns.{HolderRuns};
ghost use Rattle.eif_meaning.specs.InstructionRuns.{InstructionRuns};
ghost use Rattle.eif_meaning.specs.KernelRuns.{KernelRuns};
ghost use Rattle.eif_meaning.specs.ListRun.{ListRun};
ghost use Rattle.eif_meaning.specs.OperatorRuns.{OperatorRuns};
ghost use Rattle.eif_meaning.specs.OrderRuns.{OrderRuns};
ghost use Rattle.eif_meaning.specs.PrecursorRuns.{PrecursorRuns};
ghost use Rattle.eif_meaning.specs.StoppedRuns.{StoppedRuns};
ghost use Rattle.eif_meaning.specs.TestRuns.{TestRuns};
ghost use Rattle.eif_meaning.specs.WrongRuns.{WrongRuns};

/// A run that is not cut off is the same under every larger bound on the levels of calls and the
/// turns of loops.
pub fn runs_grow()
    ensures { RunsGrow }
{}

/// Runs of small systems that are worked out.
pub fn worked_runs()
    ensures first { FirstRuns }
    ensures wrong { WrongRuns }
    ensures stopped { StoppedRuns }
    ensures order { OrderRuns }
    ensures instructions { InstructionRuns }
    ensures binding { BindingRuns }
    ensures precursors { PrecursorRuns }
    ensures generic { GenericRuns }
    ensures holders { HolderRuns }
    ensures tests { TestRuns }
    ensures bounds { BoundedRuns }
    ensures operators { OperatorRuns }
    ensures kernel { KernelRuns }
    ensures list { ListRun }
{}
