//! What is told of a row of the arrivals.

ghost use Rattle.std.specs.Prelude.{◌≡◌, ◌≤◌, ◌+◌, ◌∷◌, [], true, length};
ghost use Rattle.slot_core.specs.declared.TheConstants.{OFFER_LIMIT, REPLAY_LIMIT};
ghost use Rattle.slot_core.specs.Keeping.Executives.{StandsFor};
ghost use Rattle.slot_core.specs.Runs.Arrivals.{are_fitting};
ghost use Rattle.slot_core.specs.Runs.Histories.{History};
ghost use Rattle.slot_core.specs.Runs.Scenes.{horizon};
ghost use Rattle.command_line.specs.Writings.{IsPartWriting, IsWriting};
ghost use Rattle.slot_cli.specs.Explained.{explained, offer_text, refusal_text, refused_offer};

use arrival_replay::{advance, tell_arrival};
use command_line::Refusal;
use future_check::{ExplainFault, explain};
use interval_row::ChainTable;
use slot_core::{Arrival, Firm, What};
use slot_exec::Exec;
use slot_io::Sink;
use std::alloc::Global;

/// An offer that was refused for want of room.
#[derive(Clone, Copy)]
pub(crate) struct RefusedOffer {
    /// Its slots.
    pub slots: u32,
    /// It was due within this many slots.
    pub within: u32,
    /// The least time up to which there is too little room.
    pub until: u64,
}

/// Brings an executive that has just started to this row, and writes the line of its entry, and
/// where that refuses an offer for want of room what stands against it. Both parts take their
/// memory before their first put.
pub(crate) fn tell_row<K: Sink>(
    alloc: Global,
    exec: &mut Exec<ChainTable>,
    arrivals: &[Arrival],
    slots: u32,
    row: u32,
    out: &mut K,
) -> Result<(), Refusal>
    requires started { StandsFor exec.old [] }
    requires some { 1 ≤ slots }
    requires few { slots ≤ REPLAY_LIMIT }
    requires fitting { are_fitting exec.old.plan.tasks slots arrivals.now ≡ true }
    requires first { 1 ≤ row }
    requires there { row ≤ length arrivals.now }
    ensures { IsPartWriting K.written K.faults true (explained exec.old.plan arrivals.now slots row)
        result out.old out.new }
{
    advance(exec, arrivals, u64::from(slots), row);
    let arrival = arrivals[row as usize - 1];
    let what = tell_arrival(exec, arrival, out)?;
    tell_refusal(alloc, exec, what, out)
}

/// Writes what stands against the offer that an executive has just answered, where it was refused
/// for want of room.
fn tell_refusal<K: Sink>(
    alloc: Global,
    exec: &Exec<ChainTable>,
    what: What,
    out: &mut K,
) -> Result<(), Refusal>
    requires { (h : History) × StandsFor exec.now (what ∷ h) }
    ensures { (h : History) → StandsFor exec.now (what ∷ h) → IsWriting K.written K.faults
        (refusal_text exec.now.plan h what) result out.old out.new }
{
    match refused_offer(what) {
        Some(offer) => tell_offer(alloc, exec, offer, out),
        None => Ok(()),
    }
}

/// The offer of an entry that refuses it for want of room, if it is such an entry.
fn refused_offer(what: What) -> Option<RefusedOffer>
    ensures { result ≡ refused_offer what }
{
    match what {
        What::Firm(_, slots, within, Firm::NoRoom(evidence)) => Some(RefusedOffer {
            slots,
            within,
            until: evidence.until,
        }),
        _ => None,
    }
}

/// Writes what stands against an offer that an executive has just refused.
fn tell_offer<K: Sink>(
    alloc: Global,
    exec: &Exec<ChainTable>,
    offer: RefusedOffer,
    out: &mut K,
) -> Result<(), Refusal>
    requires later { 1 ≤ offer.within }
    requires due { exec.now.scene.time + offer.within ≤ offer.until }
    requires near { offer.until ≤ horizon exec.now.plan.cycle exec.now.scene.time }
    requires some { 1 ≤ offer.slots }
    requires few { offer.slots ≤ OFFER_LIMIT }
    ensures { (h : History) → StandsFor exec.now h → IsWriting K.written K.faults
        (offer_text exec.now.plan h offer) result out.old out.new }
{
    let dl = exec.now() + u64::from(offer.within);
    match explain(alloc, exec, offer.slots, dl, offer.until, out) {
        Ok(()) => Ok(()),
        Err(ExplainFault::Memory) => Err(Refusal::Memory),
        Err(ExplainFault::Failed) => Err(Refusal::WriteFault),
    }
}
