/// A step of an install, in their order.
#[derive(Clone, Copy, Debug, PartialEq, Eq)]
pub enum InstallStep {
    /// The gate of the other slot is to be closed.
    Close,
    /// The manifest is to be written behind it.
    Body,
    /// The gate is to be opened.
    Open,
}
