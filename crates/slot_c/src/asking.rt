//! What is asked of an executive, which stays as it is.

ghost use Rattle.std.specs.Prelude.{◌≡◌, ◌≢◌, ◌≤◌, ◌*◌, ◌++◌, true, false, drop as beyond, length as count_of, slice_get, Some};
ghost use Rattle.slot_core.specs.declared.TheConstants.{TIME_LIMIT};
ghost use Rattle.slot_core.specs.declared.jobs.Key.{Key};
ghost use Rattle.slot_core.specs.Output.Texts.{key_text};
ghost use Rattle.key_texts.specs.KeyTexts.{sporadic_named};
ghost use Rattle.slot_port.specs.declared.TheConstants.{KEY_TEXT_LIMIT};
ghost use Rattle.slot_port.specs.declared.status.TheConstants.{CLOSED, OK};
ghost use Rattle.slot_port.specs.Calls.{ran_in, StaysAhead};
ghost use Rattle.slot_port.specs.Keys.{key_named, ran_numbers};
ghost use Rattle.slot_port.specs.Spans.{spans_in};
ghost use Rattle.slot_port.specs.Statuses.{ahead_status, name_status, span_status, text_status};

use crate::handle::Slots;
use slot_port::{CLOSED, KeyNumbers, OK, SpanNumbers};
use std::alloc::Global;

/// How many slots have passed.
#[unsafe(no_mangle)]
pub extern "C" fn ss_now(slots: &mut Slots, alloc: Global, now: &mut u64) -> u32
    requires valid { slots.old.open ≡ slots.old.handle.there }
    ensures valid { slots.new.open ≡ slots.new.handle.there }
    ensures open { slots.new.open ≡ slots.old.open }
    ensures closed { slots.old.open ≡ false → result ≡ CLOSED }
    ensures stays { slots.new.handle.value ≡ slots.old.handle.value }
    ensures silent { result ≢ OK → now.new ≡ now.old }
    ensures done { slots.old.open ≡ true → result ≡ OK }
    ensures tells { result ≡ OK → now.new ≡ slots.old.handle.value.scene.time }
    ensures early { result ≡ OK → now.new ≤ TIME_LIMIT }
{
    if !slots.open {
        return CLOSED;
    }
    let unit = slots.take(alloc);
    *now = unit.exec.now();
    *slots = Slots::opened(unit);
    OK
}

/// The row of the last arrival, 0 before the first.
#[unsafe(no_mangle)]
pub extern "C" fn ss_last_row(slots: &mut Slots, alloc: Global, row: &mut u32) -> u32
    requires valid { slots.old.open ≡ slots.old.handle.there }
    ensures valid { slots.new.open ≡ slots.new.handle.there }
    ensures open { slots.new.open ≡ slots.old.open }
    ensures closed { slots.old.open ≡ false → result ≡ CLOSED }
    ensures stays { slots.new.handle.value ≡ slots.old.handle.value }
    ensures silent { result ≢ OK → row.new ≡ row.old }
    ensures done { slots.old.open ≡ true → result ≡ OK }
    ensures tells { result ≡ OK → row.new ≡ slots.old.handle.value.last_row }
{
    if !slots.open {
        return CLOSED;
    }
    let unit = slots.take(alloc);
    *row = unit.exec.last_row();
    *slots = Slots::opened(unit);
    OK
}

/// What runs in the next slot, and for how many slots that stays so.
#[unsafe(no_mangle)]
pub extern "C" fn ss_ahead(
    slots: &mut Slots,
    alloc: Global,
    most: u32,
    ran: &mut KeyNumbers,
    count: &mut u32,
) -> u32
    requires valid { slots.old.open ≡ slots.old.handle.there }
    ensures valid { slots.new.open ≡ slots.new.handle.there }
    ensures open { slots.new.open ≡ slots.old.open }
    ensures closed { slots.old.open ≡ false → result ≡ CLOSED }
    ensures stays { slots.new.handle.value ≡ slots.old.handle.value }
    ensures silent { result ≢ OK → ran.new ≡ ran.old }
    ensures untold { result ≢ OK → count.new ≡ count.old }
    ensures status { slots.old.open ≡ true → result ≡ ahead_status most }
    ensures tells { result ≡ OK → ran.new ≡ ran_numbers (ran_in slots.old.handle.value) }
    ensures ahead { result ≡ OK → StaysAhead slots.old.handle.value most count.new }
{
    if !slots.open {
        return CLOSED;
    }
    let unit = slots.take(alloc);
    let status = slot_port::ahead(&unit.exec, most, ran, count);
    *slots = Slots::opened(unit);
    status
}

/// How many spans there are.
#[unsafe(no_mangle)]
pub extern "C" fn ss_span_count(slots: &mut Slots, alloc: Global, count: &mut u32) -> u32
    requires valid { slots.old.open ≡ slots.old.handle.there }
    ensures valid { slots.new.open ≡ slots.new.handle.there }
    ensures open { slots.new.open ≡ slots.old.open }
    ensures closed { slots.old.open ≡ false → result ≡ CLOSED }
    ensures stays { slots.new.handle.value ≡ slots.old.handle.value }
    ensures silent { result ≢ OK → count.new ≡ count.old }
    ensures done { slots.old.open ≡ true → result ≡ OK }
    ensures tells { result ≡ OK → count.new ≡ count_of slots.old.handle.value.scene.points }
    ensures some { result ≡ OK → 1 ≤ count.new }
    ensures few { result ≡ OK → count.new ≤ 3 * slots.old.handle.value.plan.cycle }
{
    if !slots.open {
        return CLOSED;
    }
    let unit = slots.take(alloc);
    *count = unit.exec.span_count();
    *slots = Slots::opened(unit);
    OK
}

/// The span at this place.
#[unsafe(no_mangle)]
pub extern "C" fn ss_get_span(
    slots: &mut Slots,
    alloc: Global,
    place: u32,
    span: &mut SpanNumbers,
) -> u32
    requires valid { slots.old.open ≡ slots.old.handle.there }
    ensures valid { slots.new.open ≡ slots.new.handle.there }
    ensures open { slots.new.open ≡ slots.old.open }
    ensures closed { slots.old.open ≡ false → result ≡ CLOSED }
    ensures stays { slots.new.handle.value ≡ slots.old.handle.value }
    ensures silent { result ≢ OK → span.new ≡ span.old }
    ensures status { slots.old.open ≡ true → result
        ≡ span_status slots.old.handle.value place }
    ensures tells { result ≡ OK
        → slice_get (spans_in slots.old.handle.value) place ≡ Some span.new }
{
    if !slots.open {
        return CLOSED;
    }
    let unit = slots.take(alloc);
    let status = slot_port::span(&unit.exec, place, span);
    *slots = Slots::opened(unit);
    status
}

/// The text of a key.
#[unsafe(no_mangle)]
pub extern "C" fn ss_key_text(
    slots: &mut Slots,
    alloc: Global,
    key: &KeyNumbers,
    text: &mut [u8],
    length: &mut usize,
) -> u32
    requires valid { slots.old.open ≡ slots.old.handle.there }
    ensures valid { slots.new.open ≡ slots.new.handle.there }
    ensures open { slots.new.open ≡ slots.old.open }
    ensures closed { slots.old.open ≡ false → result ≡ CLOSED }
    ensures stays { slots.new.handle.value ≡ slots.old.handle.value }
    ensures untouched { result ≢ OK → text.new ≡ text.old }
    ensures silent { result ≢ OK → length.new ≡ length.old }
    ensures status { slots.old.open ≡ true → result
        ≡ text_status slots.old.handle.value key.now (count_of text.old) }
    ensures writes { (k : Key) → key_named key.now ≡ Some k → result ≡ OK
        → text.new
        ≡ key_text slots.old.handle.value.plan.tasks k ++ beyond length.new text.old }
    ensures tells { (k : Key) → key_named key.now ≡ Some k → result ≡ OK
        → length.new ≡ count_of (key_text slots.old.handle.value.plan.tasks k) }
    ensures short { result ≡ OK → length.new ≤ KEY_TEXT_LIMIT }
{
    if !slots.open {
        return CLOSED;
    }
    let unit = slots.take(alloc);
    let status = slot_port::key_text(&unit.exec, *key, text, length);
    *slots = Slots::opened(unit);
    status
}

/// The index of the sporadic task of this name.
#[unsafe(no_mangle)]
pub extern "C" fn ss_sporadic_index(
    slots: &mut Slots,
    alloc: Global,
    name: &[u8],
    index: &mut u32,
) -> u32
    requires valid { slots.old.open ≡ slots.old.handle.there }
    ensures valid { slots.new.open ≡ slots.new.handle.there }
    ensures open { slots.new.open ≡ slots.old.open }
    ensures closed { slots.old.open ≡ false → result ≡ CLOSED }
    ensures stays { slots.new.handle.value ≡ slots.old.handle.value }
    ensures silent { result ≢ OK → index.new ≡ index.old }
    ensures status { slots.old.open ≡ true → result
        ≡ name_status slots.old.handle.value name.now }
    ensures tells { result ≡ OK → sporadic_named
        slots.old.handle.value.plan.tasks.sporadics
        name.now
        ≡ Some index.new }
{
    if !slots.open {
        return CLOSED;
    }
    let unit = slots.take(alloc);
    let status = slot_port::sporadic_index(&unit.exec, name, index);
    *slots = Slots::opened(unit);
    status
}
