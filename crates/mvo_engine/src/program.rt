use crate::engine::Engine;
use crate::gate::OpenGate;
use crate::run::Run;
use crate::seen_durable::SeenDurable;
use mvo_disk::Disk;
use mvo_types::Refusal;
use std::sync::Wait;
use std::thread::Threads;

/// What is done with an engine from its opening to its end (`with_engine`).
pub trait Program<T, D: Disk> {
    ghost use Rattle.std.specs.Prelude.{ℕ, List, Result, ⊤};
    ghost use Rattle.mvo_types.specs.declared.refusal.Refusal.{Refusal};

    /// What a run comes to: the program, its result, and how far its sessions have seen commits to
    /// be durable, of those that it says it of. By default anything.
    ghost comes_to: { Self → Result T Refusal → List ℕ → Type 0 } = { λ program result seen. ⊤ };

    /// Works with the engine. It is written for every run, and the engine is shut down behind it,
    /// whatever it answers. What is pushed to `seen` (`Session::seen`) is known to be on the disk
    /// then, also behind a refusal. A program that starts threads makes its engine by hand
    /// (`Engine::new`): what a method sends to a thread isn't proved.
    fn run<L: Run + Send + Sync, R: Threads + Wait + Sync>(
        &self,
        rt: &R,
        engine: &Engine<L, D, OpenGate>,
        seen: &mut Vec<SeenDurable<L>>,
    ) -> Result<T, Refusal>
        ensures comes { comes_to self.now result seen.new.items };
}
