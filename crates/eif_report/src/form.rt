/// How a report is written.
#[derive(Clone, Copy, Debug, PartialEq, Eq)]
pub enum ReportForm {
    /// A line for each fault, by its code; faults that differ in the case alone have one line.
    One,
    /// A line for each fault, by its code and its case, and then a line for each code that occurs
    /// with the count of its lines.
    Two,
}
