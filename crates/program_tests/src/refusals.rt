//! Refusals and their lines.

ghost use Rattle.std.specs.Prelude.{◌≡◌, ◌∷◌, [], codes, IfOk};

use command_line::{File, Refusal, Status, report};
use faults::{ArrivalFault, TableFault};
use slot_core::{Field, Part, Place, TaskFault, Window, Words};
use slot_io::MemorySink;
use std::alloc::Global;
use std::test::Fail;

const PERIOD: Place = Place {
    part: Part::Graph(3),
    field: Field::Period,
};

const WINDOW: Window = Window {
    from: 5,
    until: 9,
    demand: 6,
};

/// Refusals of the words below, their statuses and their lines.
const REFUSALS: [(Refusal, Status, &str); 11] = [
    (
        Refusal::Unreadable(File::Arrivals),
        Status::FileFault,
        "cannot read none.csv\n",
    ),
    (
        Refusal::TooLarge(File::Tasks),
        Status::TooLarge,
        "too large a.toml 1048576\n",
    ),
    (
        Refusal::BadTasks(TaskFault::OutOfRange(PERIOD, -7)),
        Status::BadTasks,
        "tasks out of range graph 3 period -7\n",
    ),
    (
        Refusal::BadTasks(TaskFault::Loop(0, 12)),
        Status::BadTasks,
        "tasks loop graph 0 task 12\n",
    ),
    (
        Refusal::Infeasible(WINDOW),
        Status::Infeasible,
        "infeasible 5 9 6\n",
    ),
    (
        Refusal::BadTable(TableFault::Short(88)),
        Status::BadTable,
        "table short 88\n",
    ),
    (
        Refusal::BadTable(TableFault::BadSource(TaskFault::Loop(1, 2))),
        Status::BadTable,
        "table source loop graph 1 task 2\n",
    ),
    (
        Refusal::BadArrivals(ArrivalFault::OutOfOrder(65535, 99999, 0)),
        Status::BadArrivals,
        "arrivals out of order 65535 99999 0\n",
    ),
    (
        Refusal::BadArrivals(ArrivalFault::TooMany),
        Status::BadArrivals,
        "arrivals too many\n",
    ),
    (Refusal::WriteFault, Status::WriteFault, "cannot write\n"),
    (Refusal::Memory, Status::Memory, "out of memory\n"),
];

#[test]
fn tells_refusals_in_one_put(rt: HostRuntime) -> Result<(), Fail> {
    let words = replay_words(rt.alloc())?;
    for (refusal, status, line) in REFUSALS {
        assert!(rt;
            is_told(rt.alloc(), &words, refusal, status, line)?,
            "{line}"
        );
    }
    Ok(())
}

/// The words of a replay.
fn replay_words(alloc: Global) -> Result<Words, Fail>
    ensures { IfOk result (λ words. words
        ≡ codes "replay" ∷ codes "a.toml" ∷ codes "none.csv" ∷ codes "2" ∷ []) }
{
    let mut words = Words::new(alloc);
    words.push("replay")?;
    words.push("a.toml")?;
    words.push("none.csv")?;
    words.push("2")?;
    Ok(words)
}

/// Whether the refusal has this status and this line, in the one put that does not fail.
fn is_told(
    alloc: Global,
    words: &Words,
    refusal: Refusal,
    status: Status,
    line: &str,
) -> Result<bool, Fail> {
    let mut err = MemorySink::with_room(alloc, 64)?;
    err.fail_put(2)?;
    let told = report(alloc, words, refusal, &mut err).status();
    Ok(told == status && err.bytes() == line.as_bytes())
}
