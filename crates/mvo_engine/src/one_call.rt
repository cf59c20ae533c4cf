//! An engine from its opening to its end in one call.

ghost use Rattle.std.specs.Prelude.{Ok, IfOk, IfErr};
ghost use Rattle.mvo_engine.specs.Opened.{IsNamedBy};
ghost use Rattle.mvo_engine.specs.OneCall.{HasWorked, HasRun, HasNotRun};

use crate::engine::Engine;
use crate::fresh::Fresh;
use crate::gate::OpenGate;
use crate::program::Program;
use crate::run::Run;
use mvo_disk::Disk;
use mvo_types::Refusal;
use std::alloc::Global;
use std::marker::Brand;
use std::sync::Wait;
use std::thread::Threads;

/// Opens what is on the disk, runs the program with an engine of it, and shuts the engine down.
/// Answers what the program gave, with the disk. What is on that is known as behind
/// `Engine::into_disk`: no commit is missing that a session was told to be durable of which the
/// program said so.
///
/// Who chooses the keys of rows must not know the seed. Refused as `Fresh::open` is, or as the
/// program was; the disk comes back, and behind the program it is known what is on it too.
pub fn with_engine<T, D: Disk + Drop, P: Program<T, D>, R: Threads + Wait + Sync>(
    rt: &R,
    alloc: Global,
    seed: u64,
    disk: D,
    program: &P,
) -> Result<(T, D), (Refusal, D)>
    ensures ok { IfOk result (λ done.
        HasRun D.Disk disk (P.comes_to program.now) (Ok done.0) done.1) }
    ensures err { IfErr result (λ e.
        HasNotRun D.Disk disk (P.comes_to program.now) e.0 e.1) }
{
    let fresh = match Fresh::open(rt, alloc, seed, disk) {
        Ok(fresh) => fresh,
        Err((refusal, disk)) => return Err((refusal, disk)),
    };
    let (result, disk) = run::<Brand, T, D, P, R>(rt, alloc, fresh, program);
    match result {
        Ok(told) => Ok((told, disk)),
        Err(refusal) => Err((refusal, disk)),
    }
}

// Runs the program with an engine of these parts, which name the run, and shuts it down.
fn run<L: Run + Send + Sync, T, D: Disk + Drop, P: Program<T, D>, R: Threads + Wait + Sync>(
    rt: &R,
    alloc: Global,
    fresh: Fresh<D>,
    program: &P,
) -> (Result<T, Refusal>, D)
    requires { IsNamedBy D.Disk L.opening L.marks L.ring L.name L.parts fresh }
    ensures { HasWorked D.Disk L.opening (P.comes_to program.now) result.0 result.1 }
{
    let engine = Engine::<L, D, OpenGate>::new(fresh, OpenGate);
    let mut seen = Vec::new(alloc);
    let result = program.run(rt, &engine, &mut seen);
    (result, engine.into_disk(seen))
}
