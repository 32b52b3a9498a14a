//! Two tasks, counted by hand.

ghost use Rattle.std.specs.Prelude.{◌≡◌, length, IfSome};

use slot_core::{Name, Sporadic};
use sporadic_reserve::Reserve;
use std::test::Fail;

/// One slot every 8 within 2, and two slots every 5 within 3.
fn two_tasks() -> Option<Reserve>
    ensures { IfSome result (λ reserve. length reserve.sporadics ≡ 2) }
{
    let alarm = Sporadic {
        name: Name::of(b"alarm")?,
        wcet: 1,
        separation: 8,
        deadline: 2,
    };
    let radio = Sporadic {
        name: Name::of(b"radio")?,
        wcet: 2,
        separation: 5,
        deadline: 3,
    };
    Some(Reserve::new(&[alarm, radio]))
}

#[test]
fn demand_is_counted_and_rises(rt: HostRuntime) -> Result<(), Fail> {
    let reserve = two_tasks().ok_or("no name")?;
    assert!(rt; Reserve::new(&[]).is_empty() && !reserve.is_empty());
    // From r on: the demand by x, and where it rises next.
    let rows = [
        (0, 1, 0, 2),
        (0, 2, 1, 3),
        (0, 8, 5, 10),
        (4, 5, 0, 6),
        (4, 8, 3, 12),
    ];
    for (r, x, slots, later) in rows {
        let told = (reserve.demand(r, x), reserve.next_deadline(r, x));
        let both = reserve.demand_and_rise(r, x);
        assert!(rt;
            told == (slots, Some(later)) && both == told,
            "from {r} by {x}"
        );
    }
    Ok(())
}

#[test]
fn arrivals_keep_their_separation(rt: HostRuntime) -> Result<(), Fail> {
    let mut reserve = two_tasks().ok_or("no name")?;
    // The task, the time, the answer, and the demand by 20 afterwards.
    let rows = [
        (0, 0, Ok(2), 10),
        (1, 4, Ok(7), 6),
        (0, 7, Err(8), 6),
        (0, 8, Ok(10), 5),
        (1, 9, Ok(12), 3),
    ];
    for (index, t, answer, slots) in rows {
        let told = reserve.arrive(index, t);
        let demand = reserve.demand(t, 20);
        assert!(rt; (told, demand) == (answer, slots), "task {index} at {t}");
    }
    Ok(())
}
