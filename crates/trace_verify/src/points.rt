//! Points at which spans end.

ghost use Rattle.std.specs.Prelude.{◌≡◌, ◌≤◌, ◌+◌, ◌^◌, ◌==◌, false, filter, nat_lt, slice_get, OnOk, length};
ghost use Rattle.std.specs.Option.{option_map_or};
ghost use Rattle.std.specs.List.{prefix_len};
ghost use Rattle.slot_core.specs.Runs.Rising.{AreRising};
ghost use Rattle.scene_steps.specs.Steps.{with_point};

use crate::front::Front;
use slot_core::Memory;

/// Puts the point among rising points, where it is not one of them.
pub(crate) fn insert_point(points: &mut Front<u64>, point: u64) -> Result<(), Memory>
    ensures { OnOk result (points.new ≡ with_point point points.old) }
{
    let place = count_before(points.items(), point);
    if is_at(points.items(), place, point) {
        return Ok(());
    }
    points.insert(place, point)?;
    Ok(())
}

/// Whether the point stands at this place.
fn is_at(points: &[u64], place: usize, point: u64) -> bool
    ensures { result ≡ option_map_or (λ p. p == point) (slice_get points.now place) false }
{
    match points.get(place) {
        Some(found) => *found == point,
        None => false,
    }
}

/// How many points at the front are before this one.
fn count_before(points: &[u64], point: u64) -> usize
    ensures count { result ≡ prefix_len (λ p. nat_lt p point) points.now }
    ensures within { result ≤ length points.now }
{
    points.iter().take_while(|p| **p < point).count()
}

/// Of points that rise from a time on, those after the next slot starts.
pub(crate) fn pass_point(points: &mut Front<u64>, time: u64)
    requires early { time ≤ 2 ^ 32 }
    requires rising { AreRising time points.old }
    ensures { points.new ≡ filter (nat_lt (time + 1)) points.old }
{
    if is_at(points.items(), 0, time + 1) {
        let _passed = points.remove(0);
    }
}
