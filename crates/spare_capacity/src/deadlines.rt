//! The capacity up to a deadline.

ghost use Rattle.std.specs.Prelude.{◌≡◌, ◌≤◌, ◌<◌, ◌^◌, length, nat_le, pos, ◌≤ℤ◌, if◌then◌else◌};
ghost use Rattle.spare_capacity.specs.Available.{available, share, surplus};
ghost use Rattle.spare_capacity.specs.Recurrence.{filled, first_spare, first_start, last_end, AreConsecutive};

use slot_core::Span;

/// The slots that are free from the start of the first span up to a deadline, which is after that
/// start and at most the last end. They are summed from the capacities: the share of the span that
/// holds the deadline, and what the spans before it have to give. One look at each span that starts
/// by the deadline.
pub fn available(rows: &[Span], dl: u64) -> i64
    requires consecutive { AreConsecutive rows.now }
    requires few { length rows.now ≤ 2 ^ 20 }
    requires filled { rows.now ≡ filled rows.now }
    requires some { 1 ≤ length rows.now }
    requires first { pos 0 ≤ℤ first_spare rows.now }
    requires after { first_start rows.now < dl }
    requires within { dl ≤ last_end 0 rows.now }
    ensures { result ≡ available rows.now dl }
{
    let mut free = 0;
    for row in rows {
        free += free_until(*row, dl);
        if dl < row.end {
            break;
        }
    }
    free as i64
}

/// What a span that starts by the deadline has to give up to there.
pub fn free_until(row: Span, dl: u64) -> u64
    requires { row.start ≤ dl }
    ensures { pos result ≡ (if nat_le row.end dl then surplus row else share dl row) }
{
    let surplus = row.spare.max(0) as u64;
    if row.end <= dl {
        surplus
    } else {
        surplus.min(dl - row.start)
    }
}
