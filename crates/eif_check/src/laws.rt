ghost use Rattle.eif_check.specs.OneReading.{OneReading, OneSystem};

/// A text is one class, or has one fault, and texts that are classes have no fault. So the faults
/// of a system are one set.
pub fn one_reading()
    ensures text { OneReading }
    ensures system { OneSystem }
{}
