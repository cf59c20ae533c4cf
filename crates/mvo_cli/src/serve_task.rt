use crate::workers::Workers;

/// What `mvo serve` is asked to do: answer the lines of clients over named pipes, over the store in
/// a folder.
#[derive(Debug, Drop)]
pub struct ServeTask<'a> {
    pub folder: &'a str,
    /// How many clients there may be at once.
    pub clients: Workers,
    /// Whether the store is kept meanwhile.
    pub keeps: bool,
    /// The folder of the pipes.
    pub pipes: &'a str,
}
