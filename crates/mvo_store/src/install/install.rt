use crate::install::install_step::InstallStep;
use mvo_manifest::Manifest;

/// A manifest that is being installed, and the step that comes next.
#[derive(Drop)]
pub struct Install {
    /// The manifest.
    pub next: Manifest,
    /// The step.
    pub step: InstallStep,
}
