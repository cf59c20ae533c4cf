//! What standard error tells where the program ends by a refusal.
use crate::equal::same;
use mvo_cli::Fault;
use mvo_types::Refusal;
use std::test::Fail;

const TOLD: [(Refusal, &str); 10] = [
    (
        Refusal::DiskFault,
        "refused 50\nthe disk met a fault: the folder or a file in it can't be opened, read, \
         written or synced\n",
    ),
    (
        Refusal::NotFormatted,
        "refused 53\nthe folder isn't there or holds no store: mvo format FOLDER makes one\n",
    ),
    (
        Refusal::Corrupt(0),
        "refused 54 0\nthe folder's file 0000, a slot of the manifest, breaks a rule of its \
         format: restore the folder from a copy\n",
    ),
    (
        Refusal::Corrupt(1),
        "refused 54 1\nthe folder's file 0001, a slot of the manifest, breaks a rule of its \
         format: restore the folder from a copy\n",
    ),
    (
        Refusal::Corrupt(1_023),
        "refused 54 1023\nthe folder's file 1023, a segment of the log or a file of a pair, breaks \
         a rule of its format: restore the folder from a copy\n",
    ),
    (
        Refusal::BadVersion,
        "refused 55\na file of the folder is of another version: mvo --version says which versions \
         are read\n",
    ),
    (
        Refusal::AlreadyFormatted,
        "refused 57\nthe folder holds a store already\n",
    ),
    (
        Refusal::OutOfMemory,
        "refused 90\nmemory was refused: it takes more, or a higher limit\n",
    ),
    (Refusal::ClockSpent, "refused 35\n"),
    (Refusal::Down, "refused 51\n"),
];

/// The number comes first, and one line behind it where a user can mend what is refused.
#[test]
fn refusals_are_told_in_lines(rt: HostRuntime) -> Result<(), Fail> {
    for (refusal, text) in TOLD {
        let told = Fault::Refused(refusal).to_string(rt.alloc())?;
        same(&rt, &told.as_str(), &text);
    }
    Ok(())
}
