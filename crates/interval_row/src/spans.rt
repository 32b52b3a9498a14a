//! What becomes of one span.

ghost use Rattle.std.specs.Int.{w64};
ghost use Rattle.std.specs.Prelude.{◌≡◌, ◌+◌, ◌≤◌, ◌<◌, ◌^◌, FitsSigned, pos, neg_ℤ, ◌+ℤ◌, ◌-ℤ◌, ◌≤ℤ◌};
ghost use Rattle.spare_capacity.specs.Lending.{repaid};
ghost use Rattle.spare_capacity.specs.Recurrence.{last_end, with_spare};
ghost use Rattle.spare_capacity.specs.Refill.{IsShort};
ghost use Rattle.interval_row.specs.Changes.{part_before, part_from, shifted};
ghost use Rattle.interval_row.specs.Works.{changed_by, spare_by, MayChangeBy};

use slot_core::Span;
use spare_capacity::with_spare;

/// How the work of a span changes: by this many slots.
#[derive(Clone, Copy)]
pub enum Change {
    More(u32),
    Fewer(u32),
}

/// The last end, or 0 where there is no span.
pub(crate) fn last_end(spans: &[Span]) -> u64
    ensures { result ≡ last_end 0 spans.now }
{
    match spans {
        [] => 0,
        [.., last] => last.end,
    }
}

/// The span with its capacity, where this is the span after it.
pub(crate) fn refilled(span: Span, after: Span) -> Span
    requires short { IsShort span }
    requires borrows_few { neg_ℤ (pos (2 ^ 61)) ≤ℤ after.spare }
    ensures { result ≡ with_spare span after.spare }
{
    with_spare(span, after.spare)
}

/// The span with this many slots less to spare.
pub(crate) fn lowered(span: Span, slots: u64) -> Span
    requires low { neg_ℤ (pos (2 ^ 60)) ≤ℤ span.spare }
    requires few { slots ≤ 2 ^ 40 }
    ensures { result ≡ record span { spare = span.spare -ℤ pos slots } }
{
    Span {
        spare: span.spare - slots as i64,
        ..span
    }
}

/// The span with this many slots more to spare.
fn raised(span: Span, slots: u64) -> Span
    requires high { span.spare ≤ℤ pos (2 ^ 60) }
    requires few { slots ≤ 2 ^ 40 }
    ensures { result ≡ record span { spare = span.spare +ℤ pos slots } }
{
    Span {
        spare: span.spare + slots as i64,
        ..span
    }
}

/// What the span before is repaid where a capacity goes from one to the other. Mostly neither is
/// above 0, and it is the difference.
pub(crate) fn repaid(before: i64, after: i64) -> i64
    requires { FitsSigned w64 (repaid before after) }
    ensures { result ≡ repaid before after }
{
    if before.max(after) <= 0 {
        return after - before;
    }
    after.min(0) - before.min(0)
}

/// The span without its first slot.
pub(crate) fn later_start(span: Span) -> Span
    requires low { neg_ℤ (pos (2 ^ 60)) ≤ℤ span.spare }
    requires more { span.start < span.end }
    ensures { result ≡ record span { start = span.start + 1; spare = span.spare -ℤ pos 1 } }
{
    Span {
        start: span.start + 1,
        ..lowered(span, 1)
    }
}

/// The span with another work, and as many slots fewer or more to spare.
pub(crate) fn changed(span: Span, change: Change) -> Span
    requires low { neg_ℤ (pos (2 ^ 60)) ≤ℤ span.spare }
    requires high { span.spare ≤ℤ pos (2 ^ 60) }
    requires few { span.work ≤ 2 ^ 40 }
    requires change { MayChangeBy change span.work }
    ensures { result ≡ record span {
      work = changed_by change span.work;
      spare = spare_by change span.spare;
    } }
{
    match change {
        Change::More(slots) => Span {
            work: span.work + u64::from(slots),
            ..lowered(span, u64::from(slots))
        },
        Change::Fewer(slots) => Span {
            work: span.work - u64::from(slots),
            ..raised(span, u64::from(slots))
        },
    }
}

/// The part of the span before `at`, without work.
pub(crate) fn part_before(span: Span, at: u64) -> Span
    ensures { result ≡ part_before at span }
{
    Span {
        end: at,
        work: 0,
        ..span
    }
}

/// The part of the span from `at` on, with all its work.
pub(crate) fn part_from(span: Span, at: u64) -> Span
    ensures { result ≡ part_from at span }
{
    Span { start: at, ..span }
}

/// The span, this many slots later.
pub(crate) fn shifted(span: Span, by: u64) -> Span
    requires start { span.start + by < 2 ^ 64 }
    requires end { span.end + by < 2 ^ 64 }
    ensures { result ≡ shifted by span }
{
    Span {
        start: span.start + by,
        end: span.end + by,
        ..span
    }
}
