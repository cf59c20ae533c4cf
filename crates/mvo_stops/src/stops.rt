ghost use Rattle.std.specs.Prelude.{◌≡◌, ◌≤◌, ◌<◌, ◌+◌, ◌-◌, ◌^◌, length, IfOk, None};
ghost use Rattle.mvo_stops.specs.Calls.{calls_in};
ghost use Rattle.mvo_stops.specs.Counting.{IsReportOf, IsReportWith};

use crate::check::{Found, check_call};
use crate::counts::Counts;
use crate::error::StopsError;
use crate::failed::Failed;
use crate::recorded::Recorded;
use crate::report::Report;
use crate::watch::Watch;
use rayon::prelude::*;
use std::alloc::AllocError;
use std::thread::Threads;

/// So many calls are looked at, in threads, before word is given.
const CALLS_AT_ONCE: usize = 64;

/// Looks at all that stops and faults may leave of a script. At each call of the device the script
/// is stopped before it and within it, and runs to its end with that call failing. It ends with the
/// first call at which something is wrong. It takes memory for some calls at a time, however many
/// there are.
pub fn check_stops(
    rt: &(impl Threads + Sync),
    recorded: &Recorded,
    watch: &mut impl Watch,
) -> Result<Report, StopsError>
    ensures { IfOk result (IsReportOf (length (calls_in recorded.now))) }
{
    let all = recorded.calls().len();
    let mut report = nothing_yet();
    let mut from = 0;
    while from < all && report.failed.is_none() {
        let to = all.min(from.saturating_add(CALLS_AT_ONCE));
        report = add_all(report, found_between(rt, recorded, from, to)?)?;
        watch.tell(report.counts.calls, all as u64, report.counts.images);
        from = to;
    }
    Ok(report)
}

/// No call is looked at.
fn nothing_yet() -> Report
    ensures { IsReportOf 0 result }
{
    Report {
        counts: Counts::new(),
        failed: None,
    }
}

/// What is found at the calls from one place up to another, from 0. One call is worth a thread.
fn found_between(
    rt: &(impl Threads + Sync),
    recorded: &Recorded,
    from: usize,
    to: usize,
) -> Result<Vec<Result<Found, StopsError>>, AllocError>
    requires { from ≤ to }
    ensures { IfOk result (λ v. length v.items ≡ to - from) }
{
    (from..to)
        .into_par_iter()
        .with_min_len(1)
        .map(|place: usize| -> Result<Found, StopsError> { check_call(rt, recorded, place) })
        .collect(rt, recorded.alloc)
}

/// The report with what was found at the next calls, up to the first at which something is wrong.
fn add_all(report: Report, found: Vec<Result<Found, StopsError>>) -> Result<Report, StopsError>
    requires none { report.failed ≡ None }
    requires few { report.counts.calls + length found.items < 2 ^ 64 }
    ensures { IfOk result (IsReportOf (report.counts.calls + length found.items)) }
{
    let mut report = report;
    for one in found {
        report = with(report, one?);
    }
    Ok(report)
}

/// The report with what was found at the next call, if nothing is wrong before.
fn with(report: Report, found: Found) -> Report
    requires { report.counts.calls + 1 < 2 ^ 64 }
    ensures { IsReportWith report found result }
{
    if report.failed.is_some() {
        return report;
    }
    let mut counts = report.counts.and(found.counts);
    counts.calls += 1;
    let failed = match found.wrong {
        Some(wrong) => Some(Failed {
            call: counts.calls,
            wrong,
        }),
        None => None,
    };
    Report { counts, failed }
}
