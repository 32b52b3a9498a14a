//! Cycles and raw jobs of sets of two graphs.

ghost use Rattle.std.specs.Prelude.{◌+◌, ◌*◌, ◌^◌, ◌<◌};

use graph_unroll::{cycle_of, unroll};
use sample_sets::two_periods_set;
use slot_core::{Key, RawJob};
use std::test::Fail;

#[test]
fn finds_cycles(rt: HostRuntime) -> Result<(), Fail> {
    for (first, second, cycle) in [(2, 3, Ok(6)), (4096, 4095, Err(16773120))] {
        let set = two_periods_set(rt.alloc(), first, second)?;
        assert!(rt; cycle_of(&set) == cycle, "of {first} and {second}");
    }
    Ok(())
}

#[test]
fn unrolls_a_cycle(rt: HostRuntime) -> Result<(), Fail> {
    let set = two_periods_set(rt.alloc(), 2, 4)?;
    let jobs = unroll(rt.alloc(), &set)?;
    let expected = [raw_job(0, 0, 2), raw_job(0, 1, 2), raw_job(1, 0, 4)];
    assert!(rt; jobs.as_slice() == expected.as_slice());
    Ok(())
}

/// The raw job of an instance of such a graph.
fn raw_job(graph: u16, instance: u64, period: u64) -> RawJob
    requires { instance * period + period < 2 ^ 64 }
{
    RawJob {
        key: Key::Offline(graph, 0, instance),
        release: instance * period,
        deadline: instance * period + period,
        wcet: 1,
    }
}
