//! The replies to the lines of a script.
use crate::jobs::lines::Lines;
use mvo_disk::Disk;
use mvo_engine::{Gate, Run};
use mvo_script::LineReply;
use std::alloc::{AllocError, Global};
use std::sync::Wait;

/// The replies to the lines of a script, a line each. A last line feed begins no further line.
pub fn replies_to<L: Run, D: Disk, G: Gate + Drop, R: Wait>(
    rt: &R,
    alloc: Global,
    lines: &mut Lines<'_, L, D, G>,
    script: &[u8],
) -> Result<String, AllocError> {
    let mut replies = String::new(alloc);
    if script.is_empty() {
        return Ok(replies);
    }
    for line in without_last_feed(script).split(|byte| *byte == b'\n') {
        let reply = lines.answer(rt, line);
        write_reply(&mut replies, &reply)?;
    }
    Ok(replies)
}

/// The script without the line feed of its last line.
fn without_last_feed(script: &[u8]) -> &[u8] {
    match script {
        [front @ .., b'\n'] => front,
        _ => script,
    }
}

fn write_reply(replies: &mut String, reply: &LineReply) -> Result<(), AllocError> {
    writeln!(replies, "{reply}")
}
