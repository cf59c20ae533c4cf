/// At which moment of a script's run a disk is left.
#[derive(Clone, Copy, Debug, PartialEq, Eq)]
pub enum When {
    /// A stop before a call.
    StopBefore,
    /// A stop within a call.
    StopWithin,
    /// A call has failed, and done nothing.
    FaultIdle,
    /// A call has failed, and done something.
    FaultInPart,
    /// A call has failed, and the store has gone on.
    FaultPassed,
    /// A stop behind that.
    StopBehindFault,
    /// A call has failed, and the script has run to its end.
    FaultAtEnd,
    /// A stop at the script's end.
    StopAtEnd,
}

impl When {
    /// All of them.
    pub const ALL: [When; 8] = [
        When::StopBefore,
        When::StopWithin,
        When::FaultIdle,
        When::FaultInPart,
        When::FaultPassed,
        When::StopBehindFault,
        When::FaultAtEnd,
        When::StopAtEnd,
    ];
}
