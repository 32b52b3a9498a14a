//! What the recurrence gives, as laws that other crates cite.

ghost use Rattle.std.specs.Prelude.{◌≡◌, ◌≤◌, ◌<◌, ◌^◌, ◌++◌, length, pos, ◌≤ℤ◌, slice_get, IfSome};
ghost use Rattle.spare_capacity.specs.Available.{available};
ghost use Rattle.spare_capacity.specs.Recurrence.{filled, first_spare, first_start, last_end, AreConsecutive};
ghost use Rattle.spare_capacity.specs.Lending.{carry, moved, repaid};
ghost use Rattle.spare_capacity.specs.Laws.{IsLeastRoom, IsLeastSlack};

use slot_core::Span;

/// The capacity of the row at this place is the least room of a stretch of rows that begins there:
/// the slots less the work, summed from there up to a row at or after it.
pub fn recurrence_is_least(rows: &[Span], at: usize)
    requires consecutive { AreConsecutive rows.now }
    requires few { length rows.now ≤ 2 ^ 20 }
    requires filled { rows.now ≡ filled rows.now }
    requires within { at < length rows.now }
    ensures { IfSome (slice_get rows.now at) (λ row. IsLeastRoom rows.now at row.spare) }
{}

/// The capacity up to a deadline is the least slack from there on: the slots from the start of the
/// first row up to a time, less the works of the rows that end by it, at the times from the
/// deadline to the last end.
pub fn sum_is_slack(rows: &[Span], dl: u64)
    requires consecutive { AreConsecutive rows.now }
    requires few { length rows.now ≤ 2 ^ 20 }
    requires filled { rows.now ≡ filled rows.now }
    requires some { 1 ≤ length rows.now }
    requires first { pos 0 ≤ℤ first_spare rows.now }
    requires after { first_start rows.now < dl }
    requires within { dl ≤ last_end 0 rows.now }
    ensures { IsLeastSlack rows.now dl (available rows.now dl) }
{}

/// Where the spans after the lenders become others, the last lender is repaid what the first of the
/// others borrows less, and each lender before it what the one after it then borrows less. So all
/// have their capacities again, and a span before the lenders is repaid what they carry.
pub fn lenders_are_repaid(lenders: &[Span], old: &[Span], new: &[Span])
    requires filled { lenders.now ++ old.now ≡ filled (lenders.now ++ old.now) }
    ensures moved { filled (lenders.now ++ new.now)
        ≡ moved (repaid (first_spare old.now) (first_spare (filled new.now))) lenders.now
        ++ filled new.now }
    ensures carried { repaid
        (first_spare (lenders.now ++ old.now))
        (first_spare (filled (lenders.now ++ new.now)))
        ≡ carry (repaid (first_spare old.now) (first_spare (filled new.now))) lenders.now }
{}
