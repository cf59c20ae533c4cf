//! Looks at all that stops and faults may leave at one call.
ghost use Rattle.std.specs.Prelude.{◌≡◌, ◌≢◌, ◌≤◌, ◌+◌, [], length, Some, None, Ok, IfOk, OnOk};
ghost use Rattle.std.specs.Option.{option_or};
ghost use Rattle.mvo_stops.specs.declared.wrong.Wrong.{Wrong};
ghost use Rattle.mvo_stops.specs.Calls.{calls_in};
ghost use Rattle.mvo_stops.specs.Judging.{wrong_in};
ghost use Rattle.mvo_stops.specs.Looking.{ChangesAt, RunsPastFault, EachMomentIsOpened, IsOpenedAt};

use crate::base::Base;
use crate::counts::Counts;
use crate::error::StopsError;
use crate::fill::{Fill, Length};
use crate::image::{Image, images_of};
use crate::judge::{Judge, wrong_in};
use crate::look::Look;
use crate::look_end::LookEnd;
use crate::loose::loose_after;
use crate::moment::Moment;
use crate::recorded::Recorded;
use crate::when::When;
use crate::which::Which;
use crate::wrong::Wrong;
use mvo_disk::{Call, MemDisk};
use mvo_types::Stamp;
use std::thread::Threads;

/// What was found at a call.
#[derive(Clone, Copy, Debug)]
pub struct Found {
    pub counts: Counts,
    pub wrong: Option<Wrong>,
}

/// Looks at the call at this place, from 0: at what a stop before it and within it leaves, at what
/// is left where it fails, then and when the rest of the script has run, and behind the last call
/// at what a stop at the script's end leaves. It ends with what is wrong first.
pub fn check_call(
    rt: &(impl Threads + Sync),
    recorded: &Recorded,
    place: usize,
) -> Result<Found, StopsError>
    ensures { IfOk result (λ found. found.wrong ≡ None → EachMomentIsOpened recorded.now place) }
{
    let (history, _, left) = recorded.run_failing(rt, place)?.into_parts();
    let mut judge = Judge::new(history);
    let ended = check_run(rt, &mut judge, recorded, place, left);
    let found = found_by(&judge, ended)?;
    with_end(rt, recorded, place, found)
}

/// What was found at the call at this place, with what a stop at the script's end leaves, if it's
/// the last. What was found wrong stays: then no more is looked at.
fn with_end(
    rt: &(impl Threads + Sync),
    recorded: &Recorded,
    place: usize,
    found: Found,
) -> Result<Found, StopsError>
    ensures kept { (w : Wrong) → found.wrong ≡ Some w → result ≡ Ok found }
    ensures before { IfOk result (λ f. f.wrong ≡ None → found.wrong ≡ None) }
    ensures stopped { IfOk result (λ f. f.wrong ≡ None →
        length (calls_in recorded.now) ≤ place + 1 → IsOpenedAt recorded.now When.StopAtEnd) }
{
    if found.wrong.is_some() || place.saturating_add(1) < recorded.calls().len() {
        return Ok(found);
    }
    let end = check_end(rt, recorded)?;
    Ok(Found {
        counts: found.counts.and(end.counts),
        wrong: end.wrong,
    })
}

/// Looks at what a stop at the script's end leaves.
fn check_end(rt: &(impl Threads + Sync), recorded: &Recorded) -> Result<Found, StopsError>
    ensures { IfOk result (λ f. f.wrong ≡ None → IsOpenedAt recorded.now When.StopAtEnd) }
{
    let all = recorded.calls().len();
    let (history, _) = recorded.run_failing(rt, all)?.into_history();
    let mut judge = Judge::new(history);
    let base = Base::before(recorded, all)?;
    let moment = Moment::before(recorded, &base, all);
    let ended = check_stopped(rt, &mut judge, recorded, &moment, When::StopAtEnd);
    found_by(&judge, ended)
}

/// What was found up to here: what the judge has found wrong is, and why no more was looked at.
fn found_by(judge: &Judge, ended: Result<(), LookEnd>) -> Result<Found, StopsError>
    ensures counts { IfOk result (λ found. found.counts ≡ judge.now.counts) }
    ensures wrong { IfOk result (λ found.
        found.wrong ≡ option_or judge.now.wrong (wrong_in ended)) }
    ensures ended { IfOk result (λ found. found.wrong ≡ None → ended ≡ Ok tt) }
{
    let wrong = judge.wrong().or(wrong_in(&ended));
    match ended {
        Ok(()) | Err(LookEnd::Wrong(_)) => Ok(Found {
            counts: judge.counts(),
            wrong,
        }),
        Err(LookEnd::Error(error)) => Err(error),
    }
}

/// Looks at a call, by the disk that is left where it fails and the rest of the script runs.
fn check_run(
    rt: &(impl Threads + Sync),
    judge: &mut Judge,
    recorded: &Recorded,
    place: usize,
    left: MemDisk,
) -> Result<(), LookEnd>
    ensures before { OnOk result (IsOpenedAt recorded.now When.StopBefore) }
    ensures within { OnOk result (ChangesAt recorded.now place →
        IsOpenedAt recorded.now When.StopWithin) }
    ensures idle { OnOk result (IsOpenedAt recorded.now When.FaultIdle) }
    ensures in_part { OnOk result (ChangesAt recorded.now place →
        IsOpenedAt recorded.now When.FaultInPart) }
    ensures passed { OnOk result (RunsPastFault recorded.now place →
        IsOpenedAt recorded.now When.FaultPassed × IsOpenedAt recorded.now When.StopBehindFault) }
    ensures at_end { OnOk result (IsOpenedAt recorded.now When.FaultAtEnd) }
{
    let base = Base::before(recorded, place)?;
    check_stops_at(rt, judge, recorded, &base, place)?;
    let rest = recorded.rest_of(&left, place);
    check_faults_at(rt, judge, recorded, &base, place, rest)?;
    let acknowledged = judge.acknowledged();
    let look = Look(When::FaultAtEnd, Which::First);
    judge.look(rt, recorded, left, acknowledged, look)?;
    Ok(())
}

/// Looks at what a stop before the call and within it leaves.
fn check_stops_at(
    rt: &(impl Threads + Sync),
    judge: &mut Judge,
    recorded: &Recorded,
    base: &Base,
    place: usize,
) -> Result<(), LookEnd>
    ensures before { OnOk result (IsOpenedAt recorded.now When.StopBefore) }
    ensures within { OnOk result (ChangesAt recorded.now place →
        IsOpenedAt recorded.now When.StopWithin) }
{
    let moment = Moment::before(recorded, base, place);
    check_stopped(rt, judge, recorded, &moment, When::StopBefore)?;
    if let Some(moment) = Moment::within(recorded, base, place)? {
        check_stopped(rt, judge, recorded, &moment, When::StopWithin)?;
    }
    Ok(())
}

/// Looks at what is left where the call fails, and has done nothing, or has done something.
fn check_faults_at(
    rt: &(impl Threads + Sync),
    judge: &mut Judge,
    recorded: &Recorded,
    base: &Base,
    place: usize,
    rest: &[Call],
) -> Result<(), LookEnd>
    ensures idle { OnOk result (IsOpenedAt recorded.now When.FaultIdle) }
    ensures in_part { OnOk result (ChangesAt recorded.now place →
        IsOpenedAt recorded.now When.FaultInPart) }
    ensures passed { OnOk result (rest.now ≢ [] →
        IsOpenedAt recorded.now When.FaultPassed × IsOpenedAt recorded.now When.StopBehindFault) }
{
    let moment = Moment::before(recorded, base, place);
    check_fault(rt, judge, recorded, moment, rest, When::FaultIdle)?;
    for fill in Fill::ALL {
        for length in Length::ALL {
            if let Some(moment) = Moment::failed(recorded, base, place, fill, length)? {
                check_fault(rt, judge, recorded, moment, rest, When::FaultInPart)?;
            }
        }
    }
    Ok(())
}

/// Looks at the disk as a fault left it, and as it is behind the calls of the rest of the script,
/// and at what a stop leaves there. Where the rest makes no call, that was looked at already.
fn check_fault<'a>(
    rt: &(impl Threads + Sync),
    judge: &mut Judge,
    recorded: &Recorded,
    moment: Moment<'a>,
    rest: &'a [Call],
    when: When,
) -> Result<(), LookEnd>
    ensures fault { OnOk result (IsOpenedAt recorded.now when) }
    ensures passed { OnOk result (rest.now ≢ [] →
        IsOpenedAt recorded.now When.FaultPassed × IsOpenedAt recorded.now When.StopBehindFault) }
{
    check_standing(rt, judge, recorded, &moment, when)?;
    if rest.is_empty() {
        return Ok(());
    }
    let moment = moment.with_rest(rest);
    check_stopped(rt, judge, recorded, &moment, When::StopBehindFault)?;
    check_standing(rt, judge, recorded, &moment, When::FaultPassed)
}

/// What a stop may leave of a disk.
fn images_on(moment: &Moment<'_>, disk: &MemDisk) -> Result<Vec<Image>, StopsError>
    ensures { IfOk result (λ v. v.items ≢ []) }
{
    let recorded = moment.recorded;
    let loose = loose_after(recorded.alloc, &moment.base.start, disk.calls())?;
    Ok(images_of(recorded.alloc, &loose)?)
}

/// The disk behind an opening at a moment, by the disk that came back. An opening changes no byte:
/// where its syncs are left out, that is the disk before it.
fn left_by_opening(moment: &Moment<'_>, disk: MemDisk) -> Result<MemDisk, StopsError> {
    if moment.recorded.do_openings_forget() {
        return moment.disk();
    }
    Ok(disk)
}

/// Looks at each image that a stop at the moment leaves.
fn check_stopped(
    rt: &(impl Threads + Sync),
    judge: &mut Judge,
    recorded: &Recorded,
    moment: &Moment<'_>,
    when: When,
) -> Result<(), LookEnd>
    ensures { OnOk result (IsOpenedAt recorded.now when) }
{
    for image in images_on(moment, &moment.disk()?)? {
        let mut disk = moment.disk()?;
        stop(&mut disk, &image)?;
        check_image(rt, judge, recorded, disk, when)?;
    }
    Ok(())
}

fn stop(disk: &mut MemDisk, image: &Image) -> Result<(), StopsError> {
    disk.stop(&image.files)?;
    Ok(())
}

/// Opens what a stop left, and again after a fault and a stop at each call of that opening. An
/// opening changes nothing there, so one disk serves for all.
fn check_image(
    rt: &(impl Threads + Sync),
    judge: &mut Judge,
    recorded: &Recorded,
    disk: MemDisk,
    when: When,
) -> Result<(), LookEnd>
    ensures { OnOk result (IsOpenedAt recorded.now when) }
{
    let acknowledged = judge.acknowledged();
    let first = Look(when, Which::First);
    let (_, disk) = judge.look(rt, recorded, disk, acknowledged, first)?;
    let behind_cut = Look(when, Which::BehindCut);
    let behind_stop = Look(when, Which::BehindCutStop);
    let mut disk = disk;
    for place in 0..disk.calls().len() {
        disk = judge.look_cut(rt, recorded, disk, place, Look(when, Which::Cut))?;
        disk = judge.look(rt, recorded, disk, acknowledged, behind_cut)?.1;
        disk = judge.look_cut(rt, recorded, disk, place, Look(when, Which::CutAgain))?;
        disk.stop(&[]).map_err(StopsError::from)?;
        disk = judge.look(rt, recorded, disk, acknowledged, behind_stop)?.1;
    }
    Ok(())
}

/// Opens a disk as a fault left it, and again after a fault and a stop at each call of that
/// opening, and after a stop behind it: what that opening answered is acknowledged then.
fn check_standing(
    rt: &(impl Threads + Sync),
    judge: &mut Judge,
    recorded: &Recorded,
    moment: &Moment<'_>,
    when: When,
) -> Result<(), LookEnd>
    ensures { OnOk result (IsOpenedAt recorded.now when) }
{
    let acknowledged = judge.acknowledged();
    let disk = moment.disk()?;
    let before = disk.calls().len();
    let first = Look(when, Which::First);
    let (mark, disk) = judge.look(rt, recorded, disk, acknowledged, first)?;
    let calls = disk.calls().len().saturating_sub(before);
    let disk = left_by_opening(moment, disk)?;
    check_answered(rt, judge, moment, &disk, acknowledged.max(mark), when)?;
    for place in 0..calls {
        check_cut(rt, judge, moment, place, acknowledged, when)?;
    }
    Ok(())
}

/// Opens what a stop leaves behind an opening that answered.
fn check_answered(
    rt: &(impl Threads + Sync),
    judge: &mut Judge,
    moment: &Moment<'_>,
    disk: &MemDisk,
    acknowledged: Stamp,
    when: When,
) -> Result<(), LookEnd> {
    let recorded = moment.recorded;
    let again = Look(when, Which::Again);
    let behind = Look(when, Which::BehindStop);
    for image in images_on(moment, disk)? {
        let (_, disk) = judge.look_again(rt, recorded, moment.disk()?, acknowledged, again)?;
        let mut disk = left_by_opening(moment, disk)?;
        stop(&mut disk, &image)?;
        judge.look(rt, recorded, disk, acknowledged, behind)?;
    }
    Ok(())
}

/// Opens again after a fault at this call of an opening, and after a stop there.
fn check_cut(
    rt: &(impl Threads + Sync),
    judge: &mut Judge,
    moment: &Moment<'_>,
    place: usize,
    acknowledged: Stamp,
    when: When,
) -> Result<(), LookEnd> {
    let recorded = moment.recorded;
    let cut = Look(when, Which::Cut);
    let disk = judge.look_cut(rt, recorded, moment.disk()?, place, cut)?;
    let disk = left_by_opening(moment, disk)?;
    let images = images_on(moment, &disk)?;
    judge.look(
        rt,
        recorded,
        disk,
        acknowledged,
        Look(when, Which::BehindCut),
    )?;
    let again = Look(when, Which::CutAgain);
    let behind = Look(when, Which::BehindCutStop);
    for image in images {
        let disk = judge.look_cut(rt, recorded, moment.disk()?, place, again)?;
        let mut disk = left_by_opening(moment, disk)?;
        stop(&mut disk, &image)?;
        judge.look(rt, recorded, disk, acknowledged, behind)?;
    }
    Ok(())
}
