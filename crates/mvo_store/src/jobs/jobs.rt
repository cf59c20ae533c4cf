//! The jobs that run, and what they keep out.
ghost use Rattle.std.specs.Prelude.{◌≡◌, length, is_some};
ghost use Rattle.std.specs.List.{list_any};
ghost use Rattle.mvo_store.specs.Jobs.{no_jobs, keeps_all_out, keeps_checkpoint_out};
ghost use Rattle.mvo_store.specs.Jobs.{keeps_merge_out, has_checkpoint, has_rotation};
ghost use Rattle.mvo_store.specs.Jobs.{due_of, merge_due_of, is_step_due, job_takes_file, takes_file};
ghost use Rattle.mvo_store.specs.Jobs.{checkpoint_pair, merge_pair, progress_at, progress_of};
ghost use Rattle.mvo_store.specs.Jobs.{checkpoint_alone, merge_alone, first_due, next_due};
ghost use Rattle.mvo_store.specs.Jobs.{first_step, is_merge_read, is_segment_read};

use crate::checkpoint::checkpoint_job::CheckpointJob;
use crate::checkpoint::checkpointing::Checkpointing;
use crate::checkpoint::stage::CheckpointStage;
use crate::install::install::Install;
use crate::jobs::due::Due;
use crate::jobs::progress::Progress;
use crate::merge::merge_job::MergeJob;
use crate::merge::seen_pairs::SeenPairs;
use crate::merge::stage::MergeStage;
use mvo_frame::Segment;
use mvo_pair::Pair;

/// The jobs that run. Those that can't run beside one another can't be written down: there is one
/// install at most, and a merge has a manifest only once it runs alone.
#[derive(Drop)]
pub enum Jobs {
    /// A rotation of the log, alone: the fresh segment is written, and takes frames once the
    /// manifest is installed.
    Rotation(Segment, Install),
    /// A merge whose files are written, alone, and how many of its records have been given their
    /// places.
    Merge(SeenPairs, usize, Install),
    /// A checkpoint of the oldest sealed segment, a merge of two neighbouring pairs whose files
    /// aren't all written, both, or none.
    Beside(Option<CheckpointJob>, Option<MergeJob>),
}

/// The step of a checkpoint that comes next.
fn due_of(stage: CheckpointStage) -> Due
    ensures { result ≡ due_of stage }
{
    match stage {
        CheckpointStage::Data(_) => Due::Data,
        CheckpointStage::Delta(_) => Due::Delta,
        CheckpointStage::Install(step) => Due::Install(step),
    }
}

/// The step of a merge that comes next.
fn merge_due_of(stage: MergeStage) -> Due
    ensures { result ≡ merge_due_of stage }
{
    match stage {
        MergeStage::Data(_) => Due::MergeData,
        MergeStage::Delta => Due::MergeDelta,
    }
}

/// Whether this step is the next of the checkpoint, if one runs.
fn checkpoint_is_due(step: Due, checkpoint: &Option<CheckpointJob>) -> bool
    ensures { result ≡ is_some (first_due step (checkpoint_alone checkpoint.now)) }
{
    match checkpoint {
        Some(CheckpointJob::Running(checkpoint)) => due_of(checkpoint.stage) == step,
        Some(CheckpointJob::Reading(_)) => false,
        None => false,
    }
}

/// Whether it is that of the merge, if one runs.
fn merge_is_due(step: Due, merge: &Option<MergeJob>) -> bool
    ensures { result ≡ is_some (first_due step (merge_alone merge.now)) }
{
    match merge {
        Some(MergeJob::Running(merge)) => merge_due_of(merge.stage) == step,
        Some(MergeJob::Reading(_)) => false,
        None => false,
    }
}

/// The next step of the merge, if one runs.
fn merge_step(merge: &Option<MergeJob>) -> Option<Due>
    ensures { result ≡ first_step (merge_alone merge.now) }
{
    match merge {
        Some(MergeJob::Running(merge)) => Some(merge_due_of(merge.stage)),
        Some(MergeJob::Reading(_)) => None,
        None => None,
    }
}

/// Whether the checkpoint, if one runs, gives the file new content.
fn checkpoint_takes(checkpoint: &Option<CheckpointJob>, file: u16) -> bool
    ensures { result ≡ list_any (λ j. job_takes_file j file) (checkpoint_alone checkpoint.now) }
{
    match checkpoint {
        Some(CheckpointJob::Running(checkpoint)) => {
            checkpoint.pair.data_file == file || checkpoint.pair.delta_file == file
        }
        Some(CheckpointJob::Reading(_)) => false,
        None => false,
    }
}

/// Whether the merge, if one runs, does.
fn merge_takes(merge: &Option<MergeJob>, file: u16) -> bool
    ensures { result ≡ list_any (λ j. job_takes_file j file) (merge_alone merge.now) }
{
    match merge {
        Some(MergeJob::Running(merge)) => {
            merge.seen.pair.data_file == file || merge.seen.pair.delta_file == file
        }
        Some(MergeJob::Reading(_)) => false,
        None => false,
    }
}

/// Whether the next delta file of a checkpoint is the last one.
fn progress_at(checkpoint: &Checkpointing) -> Progress
    ensures { result ≡ progress_at (length checkpoint.now.made.deltas) checkpoint.now.stage }
{
    match checkpoint.stage {
        CheckpointStage::Delta(written) => {
            if written < checkpoint.made.deltas.as_slice().len() {
                Progress::More
            } else {
                Progress::Ready
            }
        }
        _ => Progress::More,
    }
}

impl Jobs {
    /// None.
    pub fn none() -> Jobs
        ensures { result ≡ no_jobs }
    {
        Jobs::Beside(None, None)
    }

    /// Whether they keep a rotation out: one runs.
    pub fn keep_all_out(&self) -> bool
        ensures { result ≡ keeps_all_out self.now }
    {
        !matches!(self, Jobs::Beside(None, None))
    }

    /// Whether they keep a checkpoint out: one runs, a rotation does, or a merge that is ready.
    pub fn keep_checkpoint_out(&self) -> bool
        ensures { result ≡ keeps_checkpoint_out self.now }
    {
        !matches!(self, Jobs::Beside(None, _))
    }

    /// Whether they keep a merge out: one runs, or a rotation does.
    pub fn keep_merge_out(&self) -> bool
        ensures { result ≡ keeps_merge_out self.now }
    {
        !matches!(self, Jobs::Beside(_, None))
    }

    /// Whether a checkpoint runs.
    pub fn has_checkpoint(&self) -> bool
        ensures { result ≡ has_checkpoint self.now }
    {
        matches!(self, Jobs::Beside(Some(_), _))
    }

    /// Whether a checkpoint runs whose segment is read.
    pub fn is_segment_read(&self) -> bool
        ensures { result ≡ is_segment_read self.now }
    {
        matches!(self, Jobs::Beside(Some(CheckpointJob::Reading(_)), _))
    }

    /// Whether a merge runs whose pairs are read.
    pub fn is_merge_read(&self) -> bool
        ensures { result ≡ is_merge_read self.now }
    {
        matches!(self, Jobs::Beside(_, Some(MergeJob::Reading(_))))
    }

    /// Whether a rotation runs.
    pub fn has_rotation(&self) -> bool
        ensures { result ≡ has_rotation self.now }
    {
        matches!(self, Jobs::Rotation(_, _))
    }

    /// Whether this step of one of them is the next.
    pub fn is_due(&self, step: Due) -> bool
        ensures { result ≡ is_step_due step self.now }
    {
        match self {
            Jobs::Rotation(_, install) => Due::Install(install.step) == step,
            Jobs::Merge(_, _, install) => Due::Install(install.step) == step,
            Jobs::Beside(checkpoint, merge) => {
                checkpoint_is_due(step, checkpoint) || merge_is_due(step, merge)
            }
        }
    }

    /// The next step of the first of them.
    pub fn next_step(&self) -> Option<Due>
        ensures { result ≡ next_due self.now }
    {
        match self {
            Jobs::Rotation(_, install) => Some(Due::Install(install.step)),
            Jobs::Merge(_, _, install) => Some(Due::Install(install.step)),
            Jobs::Beside(Some(CheckpointJob::Running(checkpoint)), _) => {
                Some(due_of(checkpoint.stage))
            }
            Jobs::Beside(Some(CheckpointJob::Reading(_)), merge) => merge_step(merge),
            Jobs::Beside(None, merge) => merge_step(merge),
        }
    }

    /// Whether one of them gives the file new content.
    pub fn take_file(&self, file: u16) -> bool
        ensures { result ≡ takes_file self.now file }
    {
        match self {
            Jobs::Rotation(fresh, _) => fresh.file == file,
            Jobs::Merge(seen, _, _) => seen.pair.data_file == file || seen.pair.delta_file == file,
            Jobs::Beside(checkpoint, merge) => {
                checkpoint_takes(checkpoint, file) || merge_takes(merge, file)
            }
        }
    }

    /// The pair that a checkpoint makes.
    pub fn checkpoint_pair(&self) -> Option<Pair>
        ensures { result ≡ checkpoint_pair self.now }
    {
        match self {
            Jobs::Beside(Some(CheckpointJob::Running(checkpoint)), _) => Some(checkpoint.pair),
            _ => None,
        }
    }

    /// The pair that a merge makes whose files aren't all written.
    pub fn merge_pair(&self) -> Option<Pair>
        ensures { result ≡ merge_pair self.now }
    {
        match self {
            Jobs::Beside(_, Some(MergeJob::Running(merge))) => Some(merge.seen.pair),
            _ => None,
        }
    }

    /// Whether the next delta file of a checkpoint is the last one.
    pub fn progress(&self) -> Progress
        ensures { result ≡ progress_of self.now }
    {
        match self {
            Jobs::Beside(Some(CheckpointJob::Running(checkpoint)), _) => progress_at(checkpoint),
            _ => Progress::More,
        }
    }
}
