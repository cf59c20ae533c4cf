use std::marker::Model;

/// What one worker does in a session of its own: the lines of a script.
#[derive(Drop)]
pub struct Job {
    /// Which job it is among those of a run.
    pub number: u32,
    /// The script's bytes.
    pub script: Vec<u8>,
}

impl Model for Job {
    ghost use Rattle.mvo_front.specs.Job.{JobData};

    ghost Value = { JobData };

    ghost view = { λ j. record { number = j.number; script = j.script.items } };
}
