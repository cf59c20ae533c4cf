/// Which file of a merge is to be written.
#[derive(Clone, Copy, Debug)]
pub enum MergeStage {
    /// The data file, of which so many records are written. Of none, the file may hold anything.
    Data(usize),
    /// The delta file.
    Delta,
}
