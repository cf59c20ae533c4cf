use crate::install::install_step::InstallStep;

/// The step of a job that comes next.
#[derive(Clone, Copy, Debug, PartialEq, Eq)]
pub enum Due {
    /// The data file of a checkpoint is to be written.
    Data,
    /// A delta file of a checkpoint is to be written.
    Delta,
    /// The data file of a merge is to be written.
    MergeData,
    /// The delta file of a merge is to be written.
    MergeDelta,
    /// This step of an install is to be made.
    Install(InstallStep),
}
