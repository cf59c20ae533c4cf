use crate::fault::Fault;
use std::fs::File;

/// Opens the named pipes of clients, which many threads may do at once. The client with the number
/// I writes its lines to the pipe `I.in`, and reads its replies from `I.out`.
pub trait ClientPipes {
    /// Looks whether both pipes of each client are there.
    fn check(&self, clients: usize) -> Result<(), Fault>;

    /// Opens the pipe that a client's lines come from. It waits until somebody writes to it.
    fn open_lines(&self, number: usize) -> Result<File, Fault>;

    /// Opens the pipe that a client's replies go to. It waits until somebody reads from it.
    fn open_replies(&self, number: usize) -> Result<File, Fault>;

    /// Opens both pipes of a client at both ends, which waits for nobody: whoever waits for another
    /// to open one of them doesn't then.
    fn open_ends(&self, number: usize) -> Result<(File, File), Fault>;
}
