//! Loads and tallies, written by hand.

use crate::names::is_what_of;
use load_gen::{Tally, arrivals_of, tasks_of};
use slot_core::{
    Arrival, Entry, Event, Evidence, Firm, Key, Shown, Soft, Spo, Taker, TaskSet, What,
};
use std::process::Abort;
use std::test::Fail;

#[test]
fn makes_the_largest_set(rt: HostRuntime) -> Result<(), Fail> {
    let tasks = tasks_of(rt.alloc(), 32)?;
    expect_largest(&rt, &tasks);
    Ok(())
}

/// The set has 32 graphs, of which some are as written here.
fn expect_largest<R: Abort>(rt: &R, tasks: &TaskSet) {
    let counts = (tasks.soft_limit, tasks.graphs.len(), tasks.sporadics.len());
    assert!(rt; counts == (8, 32, 1));
    for (i, period, name) in [
        (0, 64, "g0"),
        (10, 128, "g10"),
        (29, 256, "g29"),
        (31, 128, "g31"),
    ] {
        assert!(rt; is_graph(tasks, i, period, name), "{name}");
    }
}

/// Whether the graph at this place has three tasks, this period and this name.
fn is_graph(tasks: &TaskSet, place: usize, period: u32, name: &str) -> bool {
    match tasks.graphs.items().get(place) {
        Some(graph) => {
            graph.period == period
                && graph.tasks.len() == 3
                && graph.name.bytes() == name.as_bytes()
        }
        None => false,
    }
}

#[test]
fn makes_the_arrivals_of_ten_slots(rt: HostRuntime) -> Result<(), Fail> {
    let arrivals = arrivals_of(rt.alloc(), 1, 10)?;
    let want = [
        Arrival {
            row: 1,
            slot: 2,
            event: Event::Firm(1, 31),
        },
        Arrival {
            row: 2,
            slot: 6,
            event: Event::Sporadic(0),
        },
    ];
    assert!(rt; arrivals.as_slice() == want.as_slice());
    Ok(())
}

/// Why a firm task is refused.
const REFUSED: Evidence = Evidence {
    until: 7,
    need: 8,
    room: 7,
};

/// An entry of each kind, in the order of the line of a tally.
const KINDS: [What; 13] = [
    What::Soft(1, 2, Soft::Taken),
    What::Soft(2, 2, Soft::Full(8)),
    What::Firm(3, 1, 31, Firm::Accepted),
    What::Firm(4, 1, 0, Firm::Late),
    What::Firm(5, 1, 65, Firm::Far),
    What::Firm(6, 8, 7, Firm::NoRoom(REFUSED)),
    What::Sporadic(7, 0, Spo::Taken(32)),
    What::Sporadic(8, 0, Spo::Soon(64)),
    What::Run(Key::Offline(0, 2, 0)),
    What::Run(Key::Sporadic(0, 7)),
    What::Run(Key::Firm(3)),
    What::Run(Key::Soft(1)),
    What::Idle,
];

#[test]
fn counts_each_kind(rt: HostRuntime) -> Result<(), Fail> {
    let tasks = tasks_of(rt.alloc(), 1)?;
    let tally = counted(&tasks)?;
    let line = "selfrun 1 slots 64 soft 1 2 firm 3 4 5 6 sporadic 7 8 run 9 10 11 12 idle 13\n";
    assert!(rt; tally.line(1, 64).bytes() == line.as_bytes());
    Ok(())
}

/// The tally that took the first kind once, the second twice, and so on.
fn counted(tasks: &TaskSet) -> Result<Tally, Fail> {
    let mut tally = Tally::new();
    for (i, what) in KINDS.iter().enumerate() {
        for _ in 0..i + 1 {
            take(&mut tally, *what, tasks)?;
        }
    }
    Ok(tally)
}

/// The tally takes an entry of this kind.
fn take(tally: &mut Tally, what: What, tasks: &TaskSet) -> Result<(), Fail> {
    if !is_what_of(what, tasks) {
        return Err("not of the set".into());
    }
    let entry = Entry {
        time: 0,
        what,
        shown: Shown::new(0),
    };
    Ok(tally.take(&entry, tasks)?)
}
