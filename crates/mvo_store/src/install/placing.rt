//! Puts the places of a job's records, in slices or all that are left.
ghost use Rattle.std.specs.Prelude.{◌≡◌, ◌+◌, ◌-◌, ◌<◌, ◌≤◌, ◌^◌, length, take, IfOk};
ghost use Rattle.mvo_ckpt.specs.Checkpoint.{BuiltCheckpoint};
ghost use Rattle.mvo_merge.specs.Moved.{HaveOwnKeys, moved};
ghost use Rattle.mvo_places.specs.Places.{PlaceMap, taken_upto};
ghost use Rattle.mvo_store.specs.Calls.StoreStep.{Place};
ghost use Rattle.mvo_store.specs.Calls.{IsStoreStep, AnswersPlaces};
ghost use Rattle.mvo_store.specs.Causes.{why_not_place};
ghost use Rattle.mvo_store.specs.Jobs.{next_installed};
ghost use Rattle.mvo_store.specs.Placing.{change_count, changes_behind, checkpoint_placed, checkpoint_job_placed, with_places};
ghost use Rattle.mvo_store.specs.Placing.{is_checkpoint_left, are_places_left, places_so_far};
ghost use Rattle.mvo_store.specs.Standing.{FitsRecords, MovesRecords, MayTakeOverOf};
ghost use Rattle.mvo_store.specs.Standing.{HaveKeysOf, JobsHaveRoom};
ghost use Rattle.mvo_store.specs.Steps.{places_by};

use crate::checkpoint::checkpoint_job::CheckpointJob;
use crate::checkpoint::checkpointing::Checkpointing;
use crate::jobs::jobs::Jobs;
use crate::jobs::progress::Progress;
use crate::jobs::run_due::slices_left;
use crate::limits::PLACES_A_SLICE;
use crate::merge::seen_pairs::SeenPairs;
use crate::store::Store;
use mvo_disk::Disk;
use mvo_merge::move_places_upto;
use mvo_places::Places;
use mvo_types::Refusal;
use std::mem::replace;

/// How many changes of the places the checkpoint makes.
fn change_count(checkpoint: &Checkpointing) -> usize
    ensures { result ≡ change_count checkpoint.now.made }
{
    checkpoint.made.gone.as_slice().len() + checkpoint.made.records.as_slice().len()
}

/// How many changes are made behind the next slice, where so many of so many are.
fn changes_behind(placed: usize, all: usize) -> usize
    ensures { result ≡ changes_behind placed all }
{
    if all.saturating_sub(placed) > PLACES_A_SLICE {
        placed + PLACES_A_SLICE
    } else {
        all
    }
}

/// Makes the changes of the places that the checkpoint makes, up to so many.
fn place_checkpoint(places: &mut Places, checkpoint: &Checkpointing, upto: usize)
    requires fits { FitsRecords places.old checkpoint.now }
    requires order { checkpoint.now.placed ≤ upto }
    ensures taken { (at : PlaceMap) →
        places.old.at ≡ taken_upto checkpoint.now.pair.data_file checkpoint.now.made.records
        checkpoint.now.made.gone checkpoint.now.placed at →
        places.new.at ≡ taken_upto checkpoint.now.pair.data_file checkpoint.now.made.records
        checkpoint.now.made.gone upto at }
    ensures room { length checkpoint.now.made.records ≤
        places.new.room + (upto - length checkpoint.now.made.gone) }
{
    let (file, made) = (checkpoint.pair.data_file, &checkpoint.made);
    places.take_over_upto(file, &made.records, &made.gone, checkpoint.placed, upto);
}

/// Moves the places of the merged pair's first so many records there, where those of the first so
/// many are moved.
fn place_merged(places: &mut Places, seen: &SeenPairs, placed: usize, upto: usize)
    requires moves { MovesRecords seen.now placed }
    requires order { placed ≤ upto }
    requires among { upto ≤ length seen.now.made.records }
    ensures { HaveOwnKeys seen.now.made.records → (at : PlaceMap) →
        places.old.at ≡ moved seen.now.left.data_file seen.now.right.data_file
        seen.now.pair.data_file (take placed seen.now.made.records) at →
        places.new.at ≡ moved seen.now.left.data_file seen.now.right.data_file
        seen.now.pair.data_file (take upto seen.now.made.records) at }
{
    let (left, right) = (seen.left.data_file, seen.right.data_file);
    let (file, records) = (seen.pair.data_file, &seen.made.records);
    move_places_upto(places, left, right, file, records, placed, upto);
}

/// Brings the places up to date with what the job has made whose manifest is installed.
pub fn take_over(places: &mut Places, jobs: &Jobs)
    requires { MayTakeOverOf places.old (next_installed jobs.now) }
    ensures { HaveKeysOf (next_installed jobs.now) → (at : PlaceMap) →
        places.old.at ≡ places_so_far (next_installed jobs.now) at →
        places.new.at ≡ places_by (next_installed jobs.now) at }
{
    match jobs {
        Jobs::Rotation(_, _) | Jobs::Beside(None, _) => {}
        Jobs::Beside(Some(CheckpointJob::Reading(_)), _) => {}
        Jobs::Beside(Some(CheckpointJob::Running(checkpoint)), _) => {
            place_checkpoint(places, checkpoint, change_count(checkpoint));
        }
        Jobs::Merge(seen, placed, _) => {
            let all = seen.made.records.as_slice().len();
            place_merged(places, seen, *placed, all);
        }
    }
}

/// Makes the next slice of the changes of the places that the job makes whose manifest is the next
/// to be installed.
fn place_more(places: &mut Places, jobs: &Jobs)
    requires { MayTakeOverOf places.old (next_installed jobs.now) }
    ensures places { HaveKeysOf (next_installed jobs.now) → (at : PlaceMap) →
        places.old.at ≡ places_so_far (next_installed jobs.now) at →
        places.new.at ≡ places_so_far (next_installed (with_places jobs.now)) at }
    ensures room { JobsHaveRoom places.old jobs.now →
        JobsHaveRoom places.new (with_places jobs.now) }
{
    match jobs {
        Jobs::Rotation(_, _) | Jobs::Beside(None, _) => {}
        Jobs::Beside(Some(CheckpointJob::Reading(_)), _) => {}
        Jobs::Beside(Some(CheckpointJob::Running(checkpoint)), _) => {
            let upto = changes_behind(checkpoint.placed, change_count(checkpoint));
            place_checkpoint(places, checkpoint, upto);
        }
        Jobs::Merge(seen, placed, _) => {
            let upto = changes_behind(*placed, seen.made.records.as_slice().len());
            place_merged(places, seen, *placed, upto);
        }
    }
}

/// The checkpoint with one slice more of its changes made.
fn checkpoint_placed(checkpoint: Checkpointing) -> Checkpointing
    ensures { result ≡ checkpoint_placed checkpoint }
{
    let upto = changes_behind(checkpoint.placed, change_count(&checkpoint));
    let Checkpointing {
        pair,
        made,
        next,
        stage,
        placed: _,
    } = checkpoint;
    Checkpointing {
        pair,
        made,
        next,
        stage,
        placed: upto,
    }
}

/// The same of one that runs. One whose segment is read changes none.
fn checkpoint_job_placed(checkpoint: CheckpointJob) -> CheckpointJob
    ensures { result ≡ checkpoint_job_placed checkpoint }
{
    match checkpoint {
        CheckpointJob::Reading(reading) => CheckpointJob::Reading(reading),
        CheckpointJob::Running(checkpoint) => {
            CheckpointJob::Running(checkpoint_placed(checkpoint))
        }
    }
}

/// The jobs that run with one slice more of those changes made.
fn with_places(jobs: Jobs) -> Jobs
    ensures { result ≡ with_places jobs }
{
    match jobs {
        Jobs::Merge(seen, placed, install) => {
            let upto = changes_behind(placed, seen.made.records.as_slice().len());
            Jobs::Merge(seen, upto, install)
        }
        Jobs::Beside(checkpoint, merge) => {
            Jobs::Beside(checkpoint.map(checkpoint_job_placed), merge)
        }
        jobs => jobs,
    }
}

/// Whether the checkpoint, if one runs, has changes left.
fn is_checkpoint_left(checkpoint: &Option<CheckpointJob>) -> bool
    ensures { result ≡ is_checkpoint_left checkpoint.now }
{
    match checkpoint {
        Some(CheckpointJob::Running(checkpoint)) => checkpoint.placed < change_count(checkpoint),
        Some(CheckpointJob::Reading(_)) => false,
        None => false,
    }
}

/// Whether some of those changes are left.
fn are_places_left(jobs: &Jobs) -> bool
    ensures { result ≡ are_places_left jobs.now }
{
    match jobs {
        Jobs::Rotation(_, _) => false,
        Jobs::Merge(seen, placed, _) => *placed < seen.made.records.as_slice().len(),
        Jobs::Beside(checkpoint, _) => is_checkpoint_left(checkpoint),
    }
}

impl<D: Disk> Store<D> {
    // Why no slice of places is put.
    fn why_not_place(&self) -> Option<Refusal>
        ensures { result ≡ why_not_place self.now }
    {
        if self.down {
            return Some(Refusal::Down);
        }
        if !are_places_left(&self.jobs) {
            return Some(Refusal::NothingToDo);
        }
        None
    }

    /// Makes the next 2,048 changes that the checkpoint that runs, or the merge whose files are
    /// written, makes of the places: a key without a row loses its place, and a record gets one.
    /// More comes with each slice but the last, and Ready with that. `install_open` makes those
    /// that are left, so it takes the less time the more slices come before it. It asks the disk
    /// for nothing and takes no memory.
    ///
    /// Refused: Down, then NothingToDo where no such job runs or all its changes are made.
    pub fn place_slice(&mut self) -> Result<Progress, Refusal>
        ensures step { IsStoreStep D.Disk self.old Place result self.new }
        ensures progress { IfOk result (AnswersPlaces self.new) }
    {
        if let Some(refusal) = self.why_not_place() {
            return Err(refusal);
        }
        place_more(&mut self.places, &self.jobs);
        let jobs = replace(&mut self.jobs, Jobs::none());
        self.jobs = with_places(jobs);
        Ok(slices_left(are_places_left(&self.jobs)))
    }
}
