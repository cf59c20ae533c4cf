use mvo_group::Group;

/// What was taken out of the ring of an engine's groups since it was opened. Nothing rests on it.
#[derive(Clone, Copy, Debug, PartialEq, Eq)]
pub struct Taken {
    /// How many commits that wrote.
    pub commits: u64,
    /// How many bytes the bodies of their groups have, without the frames round them.
    pub bytes: u64,
}

impl Taken {
    /// Nothing.
    pub fn new() -> Taken {
        Taken {
            commits: 0,
            bytes: 0,
        }
    }

    /// This group, too.
    pub fn count(&mut self, group: &Group) {
        let (commits, bytes) = (group.records().len(), group.encoded_len());
        self.commits = self.commits.saturating_add(commits as u64);
        self.bytes = self.bytes.saturating_add(bytes as u64);
    }
}
