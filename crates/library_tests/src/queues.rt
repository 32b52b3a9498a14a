//! Calls in a row, with what each answers.

ghost use Rattle.std.specs.Prelude.{◌≡◌, ◌<◌};

use job_queue::JobQueue;
use slot_core::{Job, Key, Steps};
use std::alloc::Global;
use std::marker::Brand;
use std::process::Abort;
use std::sync::ledger::{Blank, Ledger};
use std::test::Fail;

const ALARM: Key = Key::Sporadic(0, 1);

const OFFER: Key = Key::Firm(2);

/// A call of a queue.
#[derive(Clone, Copy)]
enum Call {
    Insert(Job),
    Come(u64),
    Earliest(u64),
    Find(Key),
    FindReady(u64, Key),
    Ran(Key),
    Take(Key),
    TakeReady(u64, Key),
}

/// A call, what it answers, and how many jobs it leaves.
type Answered = (Call, Option<Job>, u32);

/// Calls in the first cycle of two tasks of a graph of period 8, the second after the first, with
/// an alarm and an offer that come before the first slot.
fn first_calls() -> [Answered; 27] {
    [
        (insert(first(0), 0, 7, 2), None, 1),
        (insert(second(0), 2, 8, 1), None, 2),
        (insert(first(1), 8, 15, 2), None, 3),
        (insert(second(1), 10, 16, 1), None, 4),
        (insert(ALARM, 0, 2, 1), None, 5),
        (insert(OFFER, 0, 7, 4), None, 6),
        (Call::Earliest(0), some(ALARM, 0, 2, 1), 6),
        (Call::Ran(ALARM), None, 5),
        (Call::Come(1), None, 5),
        (Call::Earliest(1), some(first(0), 0, 7, 2), 5),
        (Call::Ran(first(0)), None, 5),
        // the offer is due at the same time
        (Call::Earliest(2), some(first(0), 0, 7, 1), 5),
        (Call::Ran(first(0)), None, 4),
        (Call::Earliest(3), some(OFFER, 0, 7, 4), 4),
        (Call::Ran(OFFER), None, 4),
        (Call::Find(OFFER), some(OFFER, 0, 7, 3), 4),
        (Call::Come(4), None, 4),
        (Call::FindReady(4, OFFER), some(OFFER, 0, 7, 3), 4),
        (Call::FindReady(4, second(0)), some(second(0), 2, 8, 1), 4),
        (Call::FindReady(4, first(1)), None, 4),
        (Call::Find(first(1)), some(first(1), 8, 15, 2), 4),
        (Call::Take(second(0)), some(second(0), 2, 8, 1), 3),
        (Call::Take(second(0)), None, 3),
        (Call::TakeReady(4, first(1)), None, 3),
        (Call::TakeReady(4, OFFER), some(OFFER, 0, 7, 3), 2),
        (Call::TakeReady(4, OFFER), None, 2),
        (Call::Earliest(7), None, 2),
    ]
}

/// Calls after them, by which the ring of listed jobs begins anew.
fn later_calls() -> [Answered; 20] {
    [
        (insert(first(2), 16, 23, 2), None, 3),
        (insert(second(2), 18, 24, 1), None, 4),
        (insert(first(3), 24, 31, 2), None, 5),
        (Call::Earliest(8), some(first(1), 8, 15, 2), 5),
        (Call::Find(first(3)), some(first(3), 24, 31, 2), 5),
        (Call::Ran(second(1)), None, 4),
        (Call::TakeReady(8, first(1)), some(first(1), 8, 15, 2), 3),
        (Call::Earliest(17), some(first(2), 16, 23, 2), 3),
        (Call::Earliest(30), some(first(2), 16, 23, 2), 3),
        // all have come, of which not all may start at an earlier time
        (Call::Come(30), None, 3),
        (Call::Earliest(17), some(first(2), 16, 23, 2), 3),
        (Call::Earliest(15), None, 3),
        (insert(OFFER, 17, 21, 1), None, 4),
        (Call::Earliest(16), some(first(2), 16, 23, 2), 4),
        (Call::Earliest(17), some(OFFER, 17, 21, 1), 4),
        (Call::Come(17), None, 4),
        (Call::Ran(first(3)), None, 4),
        (Call::Ran(OFFER), None, 3),
        (Call::Take(first(2)), some(first(2), 16, 23, 2), 2),
        (Call::Earliest(30), some(second(2), 18, 24, 1), 2),
    ]
}

#[test]
fn answers_calls_in_a_row(rt: HostRuntime) -> Result<(), Fail> {
    make_calls::<HostRuntime, Brand>(&rt, rt.alloc(), Blank::new(1))
}

/// Makes the calls of a queue with six places.
fn make_calls<R: Abort, L: Ledger>(rt: &R, alloc: Global, blank: Blank) -> Result<(), Fail>
    requires name { blank.name ≡ L.name }
    requires parts { blank.parts ≡ L.parts }
    requires some { 0 < L.parts }
{
    let mut steps: Steps<L> = Steps::new(blank);
    let mut queue = JobQueue::with_capacity(alloc, 6)?;
    assert!(rt; (queue.len(), queue.capacity()) == (0, 6));
    expect_answers(rt, &mut queue, &mut steps, &first_calls());
    expect_answers(rt, &mut queue, &mut steps, &later_calls());
    Ok(())
}

/// Each call answers so, and leaves this many jobs.
fn expect_answers<R: Abort, L: Ledger>(
    rt: &R,
    queue: &mut JobQueue,
    steps: &mut Steps<L>,
    calls: &[Answered],
) {
    for (call, answer, count) in calls {
        assert!(rt; answer_of(queue, *call, steps) == *answer);
        assert!(rt; queue.len() == *count);
    }
}

/// What the call answers.
fn answer_of<L: Ledger>(queue: &mut JobQueue, call: Call, steps: &mut Steps<L>) -> Option<Job> {
    match call {
        Call::Insert(job) => {
            insert_new(queue, job, steps);
            None
        }
        Call::Come(now) => {
            queue.come(now, steps);
            None
        }
        Call::Earliest(now) => queue.earliest(now, steps),
        Call::Find(key) => queue.find(key, steps),
        Call::FindReady(now, key) => queue.find_ready(now, key, steps),
        Call::Ran(key) => {
            run_present(queue, key, steps);
            None
        }
        Call::Take(key) => queue.take(key, steps),
        Call::TakeReady(now, key) => queue.take_ready(now, key, steps),
    }
}

/// Inserts the job, where the queue may take it.
fn insert_new<L: Ledger>(queue: &mut JobQueue, job: Job, steps: &mut Steps<L>) {
    let is_new = queue.find(job.key, steps).is_none();
    let is_soft = matches!(job.key, Key::Soft(_));
    if is_new && !is_soft && 1 <= job.left && queue.len() < queue.capacity() {
        queue.insert(job, steps);
    }
}

/// A slot of the job of this key, where there is one.
fn run_present<L: Ledger>(queue: &mut JobQueue, key: Key, steps: &mut Steps<L>) {
    if queue.find(key, steps).is_some() {
        queue.ran(key, steps);
    }
}

fn insert(key: Key, est: u64, dl: u64, left: u32) -> Call {
    Call::Insert(job(key, est, dl, left))
}

fn some(key: Key, est: u64, dl: u64, left: u32) -> Option<Job> {
    Some(job(key, est, dl, left))
}

/// A job of four declared slots.
fn job(key: Key, est: u64, dl: u64, left: u32) -> Job {
    Job {
        key,
        est,
        dl,
        left,
        declared: 4,
    }
}

/// The first task of the graph, in this instance.
fn first(instance: u64) -> Key {
    Key::Offline(0, 0, instance)
}

/// The second task of the graph, in this instance.
fn second(instance: u64) -> Key {
    Key::Offline(0, 1, instance)
}
