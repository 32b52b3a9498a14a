//! The plan of a flight controller.

use cycle_plan::{Plan, make_plan};
use sample_sets::unmanned_flight_set;
use slot_core::{Job, Key, Span};
use std::test::Fail;

/// The start, the end, the work and the capacity of each span of the flight controller's plan.
const FLIGHT_SPANS: [(u64, u64, u64, i64); 15] = [
    (0, 8, 1, 7),
    (8, 9, 1, 0),
    (9, 10, 1, 0),
    (10, 17, 1, 3),
    (17, 18, 1, -3),
    (18, 19, 3, -3),
    (19, 20, 2, -1),
    (20, 28, 1, 4),
    (28, 29, 1, -3),
    (29, 30, 1, -3),
    (30, 36, 2, -3),
    (36, 37, 1, -7),
    (37, 38, 1, -7),
    (38, 39, 6, -7),
    (39, 40, 3, -2),
];

/// When its jobs of one cycle start.
const FLIGHT_STARTS: [u64; 21] = [
    0, 0, 0, 1, 1, 2, 2, 3, 5, 10, 11, 12, 20, 20, 21, 21, 22, 23, 30, 31, 32,
];

/// A job of the radio link in the third cycle.
const LATER: Job = Job {
    key: Key::Offline(2, 2, 2),
    est: 85,
    dl: 120,
    left: 1,
    declared: 1,
};

#[test]
fn plans_a_flight_controller(rt: HostRuntime) -> Result<(), Fail> {
    let tasks = unmanned_flight_set(rt.alloc())?;
    let plan = make_plan(rt.alloc(), tasks).ok().ok_or("no plan")?;
    assert!(rt; is_flight(&plan));
    Ok(())
}

/// Whether the plan has the cycle, the jobs and the spans of the flight controller.
fn is_flight(plan: &Plan) -> bool {
    (plan.cycle(), plan.jobs().len()) == (40, 21)
        && are_spans(plan.spans(), &FLIGHT_SPANS)
        && are_starts(plan.jobs_by_start(), &FLIGHT_STARTS)
        && tells_later(plan)
}

/// Whether the spans have these starts, ends, works and capacities.
fn are_spans(spans: &[Span], rows: &[(u64, u64, u64, i64)]) -> bool {
    for (span, row) in spans.iter().zip(rows) {
        if (span.start, span.end, span.work, span.spare) != *row {
            return false;
        }
    }
    spans.len() == rows.len()
}

/// Whether the jobs start so.
fn are_starts(jobs: &[Job], starts: &[u64]) -> bool {
    for (job, start) in jobs.iter().zip(starts) {
        if job.est != *start {
            return false;
        }
    }
    jobs.len() == starts.len()
}

/// Whether the last job, and the ninth by start, are the one of the radio link two cycles later.
fn tells_later(plan: &Plan) -> bool {
    let last = plan.jobs().len().checked_sub(1);
    let ninth = plan.jobs_by_start().get(8);
    match (last, ninth) {
        (Some(last), Some(ninth)) => {
            plan.job_in_cycle(last, 2) == LATER && plan.later_job(*ninth, 2) == LATER
        }
        _ => false,
    }
}
