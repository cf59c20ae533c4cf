/// What a line of a client is.
pub enum ClientLine {
    /// `client WORD`: another client begins, which is answered with its own line. What the one
    /// before has left open is rolled back: a pipe doesn't tell where it went.
    Client,
    /// `durable`: waits until what has committed is durable.
    Durable,
    /// `leave`: rolls the present transaction back, if there is one.
    Leave,
    /// `stats`: how the engine stands.
    Stats,
    /// `stop`: ends the program.
    Stop,
    /// Any other: it is one of a job, or a bad one.
    OfJob,
}

impl ClientLine {
    /// What a line is, without its line feed.
    pub fn of(line: &[u8]) -> ClientLine {
        if line.starts_with(b"client ".as_slice()) {
            ClientLine::Client
        } else if line == b"durable".as_slice() {
            ClientLine::Durable
        } else if line == b"leave".as_slice() {
            ClientLine::Leave
        } else if line == b"stats".as_slice() {
            ClientLine::Stats
        } else if line == b"stop".as_slice() {
            ClientLine::Stop
        } else {
            ClientLine::OfJob
        }
    }
}
