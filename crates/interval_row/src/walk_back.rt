//! How a change of a capacity is followed back through the spans before it.

ghost use Rattle.std.specs.Prelude.{◌≡◌, ◌+◌, ◌*◌, ◌≤◌, ◌<◌, ◌^◌, pos, length, take, IfSome, slice_get};
ghost use Rattle.interval_row.specs.declared.marks.TheConstants.{PAGE};
ghost use Rattle.spare_capacity.specs.Recurrence.{first_start, last_end};
ghost use Rattle.interval_row.specs.Changes.{ends_before};
ghost use Rattle.interval_row.specs.Marks.{page_of};
ghost use Rattle.interval_row.specs.Spans.{AreFilled};
ghost use Rattle.interval_row.specs.Stores.{Keeps};
ghost use Rattle.interval_row.specs.Walks.{after_walk, AreInPages, IsPageOf};

use crate::marks::{self, PAGE};
use crate::store::Store;
use slot_core::Steps;
use std::sync::ledger::Ledger;

/// How far a walk back through spans has come: how many of them are yet to follow, and what the
/// last of these is repaid.
#[derive(Clone, Copy)]
pub struct Walk {
    pub index: u32,
    /// In slots, below 0 where it lends more.
    pub more: i64,
}

/// The walk from spans on that have followed, of which the first starts at `start`.
#[derive(Clone, Copy)]
pub struct Followed {
    pub walk: Walk,
    pub start: u64,
    /// None of them, but the first of all spans, has more capacity than this.
    pub high: i64,
}

/// A walk at the start of a page: as long as something is repaid, the spans that end in this page
/// and in all later ones have followed.
#[derive(Clone, Copy)]
pub struct PageWalk {
    pub page: u64,
    pub walk: Walk,
}

/// From a span on that has followed, and starts there, those before it do, as long as something is
/// repaid. Two steps each. Returns how many of the first spans it has left.
pub(crate) fn follow_all<S: Store, L: Ledger>(
    store: &mut S,
    from: Walk,
    start: u64,
    steps: &mut Steps<L>,
) -> u32
    requires span { IfSome (slice_get (S.spans store.old) from.index) (λ s. s.start ≡ start) }
    requires within { from.index < length (S.spans store.old) }
    requires filled { AreFilled (after_walk from (S.spans store.old)) }
    ensures spans { S.spans store.new ≡ after_walk from (S.spans store.old) }
    ensures front { take result (S.spans store.new) ≡ take result (S.spans store.old) }
    ensures before { result ≤ from.index }
    ensures kept { Keeps S.room S.marks store.old store.new }
    ensures steps { steps.old ≤ steps.new }
    ensures few_steps { steps.new ≤ steps.old + 2 * from.index }
{
    let mut walk = from;
    let mut end = start;
    while 0 < walk.index && walk.more != 0 {
        let followed = store.follow_spans(walk, end / PAGE, steps);
        walk = followed.walk;
        end = followed.start;
    }
    walk.index
}

/// From a span on that has followed, and starts there, those before it do that end in the same
/// page, as long as something is repaid. Two steps each.
pub(crate) fn follow_rest<S: Store, L: Ledger>(
    store: &mut S,
    from: Walk,
    start: u64,
    page: u64,
    steps: &mut Steps<L>,
) -> Walk
    requires span { IfSome (slice_get (S.spans store.old) from.index)
        (λ s. (s.start ≡ start) × (page_of s.end ≡ page)) }
    requires within { from.index < length (S.spans store.old) }
    requires filled { AreFilled (after_walk from (S.spans store.old)) }
    ensures spans { after_walk result (S.spans store.new) ≡ after_walk from (S.spans store.old) }
    ensures place { (result.more ≡ pos 0 → ⊥)
        → result.index ≡ ends_before (page * PAGE) (S.spans store.new) }
    ensures front { take result.index (S.spans store.new) ≡ take result.index (S.spans store.old) }
    ensures before { result.index ≤ from.index }
    ensures kept { Keeps S.room S.marks store.old store.new }
    ensures steps { steps.old ≤ steps.new }
    ensures few_steps { steps.new + 2 * result.index ≤ steps.old + 2 * from.index }
{
    if from.index == 0 || from.more == 0 || start / PAGE < page {
        return from;
    }
    store.follow_spans(from, page, steps).walk
}

/// The spans of a page follow, two steps each, as long as something is repaid. Where all of them
/// have, and something is repaid to those before, or none stands before, the bound that is put is
/// the greatest of their capacities, that of the first of all spans left out.
fn follow_page<S: Store, L: Ledger>(
    store: &mut S,
    page: u64,
    from: Walk,
    steps: &mut Steps<L>,
) -> Walk
    requires pages { AreInPages (after_walk from (S.spans store.old)) (S.marks store.old) }
    requires page { IsPageOf (after_walk from (S.spans store.old)) page }
    requires near { page * PAGE < 2 ^ 64 }
    requires some { ends_before (page * PAGE) (S.spans store.old) < from.index }
    requires place { from.index ≡ ends_before ((page + 1) * PAGE) (S.spans store.old) }
    requires more { from.more ≡ pos 0 → ⊥ }
    ensures spans { after_walk result (S.spans store.new) ≡ after_walk from (S.spans store.old) }
    ensures place { (result.more ≡ pos 0 → ⊥)
        → result.index ≡ ends_before (page * PAGE) (S.spans store.new) }
    ensures front { take result.index (S.spans store.new) ≡ take result.index (S.spans store.old) }
    ensures before { result.index ≤ from.index }
    ensures kept { Keeps S.room S.marks store.old store.new }
    ensures steps { steps.old ≤ steps.new }
    ensures few_steps { steps.new + 2 * result.index ≤ steps.old + 2 * from.index }
{
    let followed = store.follow_spans(from, page, steps);
    if followed.walk.more != 0 || followed.walk.index == 0 {
        store.set_high(marks::index_of_page(page), followed.high);
    }
    followed.walk
}

/// Pages follow at once, the last first, and then the spans of the first page that does not.
fn follow_some<S: Store, L: Ledger>(
    store: &mut S,
    first_page: u64,
    from: PageWalk,
    steps: &mut Steps<L>,
) -> PageWalk
    requires pages { AreInPages (after_walk from.walk (S.spans store.old)) (S.marks store.old) }
    requires first { first_page ≡ page_of (first_start (after_walk from.walk (S.spans store.old))) }
    requires end { from.page ≤ page_of (last_end 0 (after_walk from.walk (S.spans store.old))) }
    requires near { from.page * PAGE < 2 ^ 64 }
    requires rising { first_page < from.page }
    requires place { from.walk.index ≡ ends_before (from.page * PAGE) (S.spans store.old) }
    requires more { from.walk.more ≡ pos 0 → ⊥ }
    ensures spans { after_walk result.walk (S.spans store.new)
        ≡ after_walk from.walk (S.spans store.old) }
    ensures place { (result.walk.more ≡ pos 0 → ⊥)
        → result.walk.index ≡ ends_before (result.page * PAGE) (S.spans store.new) }
    ensures first { first_page ≤ result.page }
    ensures before { result.page < from.page }
    ensures front { take result.walk.index (S.spans store.new)
        ≡ take result.walk.index (S.spans store.old) }
    ensures passed { result.walk.index ≤ from.walk.index }
    ensures kept { Keeps S.room S.marks store.old store.new }
    ensures steps { steps.old ≤ steps.new }
    ensures few_steps { steps.new + 2 * result.walk.index ≤ steps.old + 2 * from.walk.index }
{
    let passed = store.pass_pages(first_page, from);
    if passed.page == first_page {
        return passed;
    }
    let page = passed.page - 1;
    let walk = follow_page(store, page, passed.walk, steps);
    PageWalk { page, walk }
}

/// The spans of the pages before this one follow, the last page first, as long as something is
/// repaid. At most two steps each. Returns how many of the first spans it has left.
pub(crate) fn follow_pages<S: Store, L: Ledger>(
    store: &mut S,
    first_page: u64,
    from: PageWalk,
    steps: &mut Steps<L>,
) -> u32
    requires pages { AreInPages (after_walk from.walk (S.spans store.old)) (S.marks store.old) }
    requires first { first_page ≡ page_of (first_start (after_walk from.walk (S.spans store.old))) }
    requires end { from.page ≤ page_of (last_end 0 (after_walk from.walk (S.spans store.old))) }
    requires near { from.page * PAGE < 2 ^ 64 }
    requires rising { first_page ≤ from.page }
    requires place { (from.walk.more ≡ pos 0 → ⊥)
        → from.walk.index ≡ ends_before (from.page * PAGE) (S.spans store.old) }
    ensures spans { S.spans store.new ≡ after_walk from.walk (S.spans store.old) }
    ensures front { take result (S.spans store.new) ≡ take result (S.spans store.old) }
    ensures before { result ≤ from.walk.index }
    ensures kept { Keeps S.room S.marks store.old store.new }
    ensures steps { steps.old ≤ steps.new }
    ensures few_steps { steps.new ≤ steps.old + 2 * from.walk.index }
{
    let mut last = from;
    while first_page < last.page && last.walk.more != 0 {
        last = follow_some(store, first_page, last, steps);
    }
    last.walk.index
}
