//! How a run of a workload ends.

/// How `run_selfrun` ends.
#[derive(Clone, Copy, Debug, PartialEq, Eq)]
pub enum SelfrunEnd {
    /// The summary was written.
    Done,
    /// A write failed, and a beginning of the summary was written.
    WriteFault,
    /// Memory was wanting, for the run or for an object in memory that it runs over. Nothing was
    /// written.
    Memory,
}
