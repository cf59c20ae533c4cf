ghost use Rattle.std.specs.Prelude.{◌≤◌};
ghost use Rattle.mvo_front.specs.declared.workers.TheConstants.{MAX_WORKERS};

use mvo_front::MAX_WORKERS;

/// How many workers run jobs at once: 1 to `MAX_WORKERS`.
#[derive(Clone, Copy, Debug)]
pub struct Workers {
    count: usize,
    ghost some: { 1 ≤ count },
    ghost few: { count ≤ MAX_WORKERS },
}

impl Workers {
    ghost use Rattle.std.specs.Prelude.{◌≡◌, ◌≤◌, IfSome};

    /// So many workers, where they are neither none nor too many.
    pub fn new(count: usize) -> Option<Workers>
        ensures { IfSome result (λ w. (w.count ≡ count) × (1 ≤ w.count) × (w.count ≤ MAX_WORKERS)) }
    {
        if count < 1 || count > MAX_WORKERS {
            return None;
        }
        Some(Workers { count })
    }

    /// How many they are.
    pub fn count(self) -> usize
        ensures value { result ≡ self.count }
        ensures some { 1 ≤ result }
        ensures few { result ≤ MAX_WORKERS }
    {
        self.count
    }
}
