//! Says what one call is, and what each image at it opens as.
use crate::base::Base;
use crate::error::StopsError;
use crate::fill::{Fill, Length};
use crate::image::{Image, images_of};
use crate::judge::Judge;
use crate::look_end::LookEnd;
use crate::loose::loose_after;
use crate::moment::Moment;
use crate::opening::{Opened, open};
use crate::recorded::Recorded;
use crate::step::step_of;
use mvo_disk::{Call, DeviceWork, MemDisk};
use mvo_types::Stamp;
use std::alloc::AllocError;
use std::fmt;
use std::thread::Threads;

/// What a call asks for, as it is printed.
#[derive(Drop)]
struct Asked<'a>(&'a Call);

impl fmt::Display for Asked<'_> {
    fn fmt<W: fmt::Write>(&self, f: &mut fmt::Formatter<W>) -> fmt::Result {
        let file = self.0.file;
        match &self.0.work {
            DeviceWork::Length => write!(f, "length of file {file}"),
            DeviceWork::Read { at, len } => write!(f, "read of file {file} at {at}, {len} bytes"),
            DeviceWork::Write { at, len, .. } => write!(
                f,
                "write of file {file} at {at}, {len} bytes"
            ),
            DeviceWork::Cut { len, .. } => write!(f, "cut of file {file} to {len} bytes"),
            DeviceWork::Sync => write!(f, "sync of file {file}"),
        }
    }
}

/// What an opening answers, as it is printed: the mark and how many rows, or the refusal.
fn write_opened(text: &mut String, opened: &Opened) -> Result<(), AllocError> {
    match opened {
        Ok((rows, mark)) => {
            let count = rows.len();
            write!(text, "mark {mark} rows {count}")
        }
        Err(refusal) => write!(text, "{refusal}"),
    }
}

/// What the call of this number, from 1, is, and what each image opens as that a stop or a fault
/// at it leaves. A line of text each.
pub fn explain_call(
    rt: &(impl Threads + Sync),
    recorded: &Recorded,
    number: usize,
) -> Result<String, StopsError> {
    let all = recorded.calls().len();
    let place = number.wrapping_sub(1);
    let Some(call) = recorded.calls().get(place) else {
        return Err(StopsError::NoSuchCall(all as u64));
    };
    let mut text = String::new(recorded.alloc);
    let asked = Asked(call);
    writeln!(text, "call {number} of {all}: {asked}")?;
    write_all(rt, recorded, place, &mut text)?;
    Ok(text)
}

fn write_all(
    rt: &(impl Threads + Sync),
    recorded: &Recorded,
    place: usize,
    text: &mut String,
) -> Result<(), StopsError> {
    let (history, fault, left) = recorded.run_failing(rt, place)?.into_parts();
    if let Some(line) = fault {
        write_line(rt, recorded, place, line, text)?;
    }
    let mut judge = Judge::new(history);
    let acknowledged = judge.acknowledged();
    writeln!(text, "acknowledged {acknowledged}")?;
    write_run(rt, &mut judge, recorded, place, left, text)
}

/// What each image at a call opens as, and the disk that is left where it fails and the rest of the
/// script runs.
fn write_run(
    rt: &(impl Threads + Sync),
    judge: &mut Judge,
    recorded: &Recorded,
    place: usize,
    left: MemDisk,
    text: &mut String,
) -> Result<(), StopsError> {
    let base = Base::before(recorded, place)?;
    write_stops(rt, judge, recorded, &base, place, text)?;
    let rest = recorded.rest_of(&left, place);
    write_faults(rt, judge, recorded, &base, place, rest, text)?;
    write!(text, "failed, at the script's end")?;
    write_one(rt, judge, recorded, left, text)
}

/// Which line makes the call, and in which of its steps.
fn write_line(
    rt: &(impl Threads + Sync),
    recorded: &Recorded,
    place: usize,
    line: usize,
    text: &mut String,
) -> Result<(), StopsError> {
    let Some(bytes) = recorded.lines.get(line) else {
        return Ok(());
    };
    let number = line.saturating_add(1);
    let words = str::from_utf8(bytes).unwrap_or("");
    write!(text, "line {number}: {words}")?;
    if let Some(step) = step_of(rt, recorded, place, line)? {
        write!(text, ", in its step {step}")?;
    }
    writeln!(text)?;
    Ok(())
}

/// What is left by a stop before the call and within it.
fn write_stops(
    rt: &(impl Threads + Sync),
    judge: &mut Judge,
    recorded: &Recorded,
    base: &Base,
    place: usize,
    text: &mut String,
) -> Result<(), StopsError> {
    let moment = Moment::before(recorded, base, place);
    write_stopped(rt, judge, &moment, "stopped before it", text)?;
    if let Some(moment) = Moment::within(recorded, base, place)? {
        write_stopped(rt, judge, &moment, "stopped within it", text)?;
    }
    Ok(())
}

/// What is left where the call fails, and has done nothing, or has done something.
fn write_faults(
    rt: &(impl Threads + Sync),
    judge: &mut Judge,
    recorded: &Recorded,
    base: &Base,
    place: usize,
    rest: &[Call],
    text: &mut String,
) -> Result<(), StopsError> {
    let moment = Moment::before(recorded, base, place);
    write_fault(rt, judge, moment, rest, "failed", text)?;
    for fill in Fill::ALL {
        for length in Length::ALL {
            if let Some(moment) = Moment::failed(recorded, base, place, fill, length)? {
                let when = format!(in recorded.alloc; "failed, {fill} {length}")?;
                write_fault(rt, judge, moment, rest, &when, text)?;
            }
        }
    }
    Ok(())
}

/// What a fault leaves, and, where calls are made behind it, what these leave, and a stop there.
fn write_fault<'a>(
    rt: &(impl Threads + Sync),
    judge: &mut Judge,
    moment: Moment<'a>,
    rest: &'a [Call],
    when: &str,
    text: &mut String,
) -> Result<(), StopsError> {
    let recorded = moment.recorded;
    write!(text, "{when}")?;
    write_one(rt, judge, recorded, moment.disk()?, text)?;
    if rest.is_empty() {
        return Ok(());
    }
    let moment = moment.with_rest(rest);
    write!(text, "{when}, and calls behind it")?;
    write_one(rt, judge, recorded, moment.disk()?, text)?;
    let stopped = format!(in recorded.alloc; "{when}, and calls behind it, stopped")?;
    write_stopped(rt, judge, &moment, &stopped, text)
}

/// What each image of a stop opens as.
fn write_stopped(
    rt: &(impl Threads + Sync),
    judge: &mut Judge,
    moment: &Moment<'_>,
    when: &str,
    text: &mut String,
) -> Result<(), StopsError> {
    let recorded = moment.recorded;
    let disk = moment.disk()?;
    let loose = loose_after(recorded.alloc, &moment.base.start, disk.calls())?;
    for image in images_of(recorded.alloc, &loose)? {
        write_image(rt, judge, moment, when, &image, text)?;
    }
    Ok(())
}

fn write_image(
    rt: &(impl Threads + Sync),
    judge: &mut Judge,
    moment: &Moment<'_>,
    when: &str,
    image: &Image,
    text: &mut String,
) -> Result<(), StopsError> {
    let mut disk = moment.disk()?;
    disk.stop(&image.files)?;
    write!(text, "{when}")?;
    if !image.files.is_empty() {
        let (fill, length) = (image.fill, image.length);
        write!(text, ", {fill} {length}")?;
    }
    write_one(rt, judge, moment.recorded, disk, text)
}

/// What a disk opens as, and what is wrong with it.
fn write_one(
    rt: &(impl Threads + Sync),
    judge: &mut Judge,
    recorded: &Recorded,
    disk: MemDisk,
    text: &mut String,
) -> Result<(), StopsError> {
    let acknowledged = judge.acknowledged();
    let (opened, _) = open(rt, recorded.alloc, recorded.seed, disk);
    write!(text, ": ")?;
    write_opened(text, &opened)?;
    match judge.judge(recorded, opened, acknowledged) {
        Ok(_) => {}
        Err(LookEnd::Wrong(wrong)) => write!(text, ", and {wrong}")?,
        Err(LookEnd::Error(error)) => return Err(error),
    }
    writeln!(text)?;
    Ok(())
}
