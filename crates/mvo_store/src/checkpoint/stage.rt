use crate::install::install_step::InstallStep;

/// How far a checkpoint is.
#[derive(Clone, Copy, Debug)]
pub enum CheckpointStage {
    /// So many records of its pair's data file are written, and the next ones are to be. Of none,
    /// the file may hold anything.
    Data(usize),
    /// So many delta files are written, and the next one is to be: first the pair's own, and then
    /// those of the older pairs that gain numbers, in order.
    Delta(usize),
    /// All files are written, and this step of its install is to be made.
    Install(InstallStep),
}
