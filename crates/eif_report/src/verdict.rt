use eif_base::FaultList;

/// What the check of a system says.
#[derive(Drop)]
pub enum Verdict {
    /// No rule is broken, in so many class texts.
    Yes(u32),
    /// What is broken, in the order of the report.
    Faults(FaultList),
}
