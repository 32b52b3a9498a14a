//! Calls in a row, against a plain list.

ghost use Rattle.std.specs.Prelude.{◌≡◌, ◌<◌, IsTrue};
ghost use Rattle.node_chain.specs.Chains.{IsListed};

use node_chain::{Chain, NodeId};
use slot_core::{Memory, Span, Steps};
use std::alloc::Global;
use std::marker::Brand;
use std::process::Abort;
use std::sync::ledger::{Blank, Ledger};
use std::test::Fail;

/// A call of a chain. An index names a span, where there are more.
#[derive(Clone, Copy)]
enum Call {
    PushBack(Span),
    PopFront,
    InsertBefore(usize, Span),
    Set(usize, Span),
}

#[test]
fn agrees_with_a_list(rt: HostRuntime) -> Result<(), Fail> {
    on_a_chain::<HostRuntime, Brand>(&rt, rt.alloc(), Blank::new(1))?;
    Ok(())
}

/// A chain of five places.
fn on_a_chain<R: Abort, L: Ledger>(rt: &R, alloc: Global, blank: Blank) -> Result<(), Memory>
    requires name { blank.name ≡ L.name }
    requires parts { blank.parts ≡ L.parts }
    requires some { 0 < L.parts }
{
    let mut steps: Steps<L> = Steps::new(blank);
    let mut chain = Chain::with_capacity(alloc, 5)?;
    beside_a_list(rt, alloc, &mut chain, &mut steps)
}

/// A list of its ids and spans.
fn beside_a_list<R: Abort, L: Ledger>(
    rt: &R,
    alloc: Global,
    chain: &mut Chain,
    steps: &mut Steps<L>,
) -> Result<(), Memory> {
    let mut list = Vec::new(alloc);
    drawn_calls(rt, chain, &mut list, steps)
}

/// Each call is made on both, after which they have the same spans.
fn drawn_calls<R: Abort, L: Ledger>(
    rt: &R,
    chain: &mut Chain,
    list: &mut Vec<(NodeId, Span)>,
    steps: &mut Steps<L>,
) -> Result<(), Memory> {
    let mut word: u64 = 7;
    for end in 0..2000 {
        word = word.wrapping_mul(6_364_136_223_846_793_005).wrapping_add(1);
        let call = call_of(word, end);
        assert!(rt; make(chain, list, call, steps)?);
        assert!(rt; has_spans(chain, list, steps) && has_ids_backwards(chain, list));
    }
    Ok(())
}

/// The call that this word names, with a span up to this end.
fn call_of(word: u64, end: u64) -> Call {
    let index = (word >> 40) as usize;
    match word >> 32 & 3 {
        0 => Call::PushBack(span(end)),
        1 => Call::InsertBefore(index, span(end)),
        2 => Call::Set(index, span(end)),
        _ => Call::PopFront,
    }
}

/// Makes a call on both, where its conditions hold. Whether the chain has the span that is named,
/// and gives the span that is taken.
fn make<L: Ledger>(
    chain: &mut Chain,
    list: &mut Vec<(NodeId, Span)>,
    call: Call,
    steps: &mut Steps<L>,
) -> Result<bool, Memory> {
    let has_room = chain.len() < chain.capacity();
    match call {
        Call::PushBack(span) if has_room => {
            list.push((chain.push_back(span, steps), span))?;
            Ok(true)
        }
        Call::InsertBefore(index, span) if has_room && !list.is_empty() => {
            let place = index % list.len();
            match insert(chain, list[place].0, span, steps) {
                Some(id) => list.insert(place, (id, span))?,
                None => return Ok(false),
            }
            Ok(true)
        }
        Call::Set(index, span) if !list.is_empty() => {
            let place = index % list.len();
            list[place].1 = span;
            Ok(set(chain, list[place].0, span, steps))
        }
        Call::PopFront if 0 < chain.len() && !list.is_empty() => {
            Ok(chain.pop_front(steps) == list.remove(0).1)
        }
        _ => Ok(true),
    }
}

/// Inserts the span before the one of this id, where the chain has that and room.
fn insert<L: Ledger>(
    chain: &mut Chain,
    before: NodeId,
    span: Span,
    steps: &mut Steps<L>,
) -> Option<NodeId> {
    if chain.len() < chain.capacity() && is_listed(chain, before) {
        Some(chain.insert_before(before, span, steps))
    } else {
        None
    }
}

/// Whether the chain has a span of this id, which is changed.
fn set<L: Ledger>(chain: &mut Chain, id: NodeId, span: Span, steps: &mut Steps<L>) -> bool {
    let has_id = is_listed(chain, id);
    if has_id {
        chain.set(id, span, steps);
    }
    has_id
}

/// Whether these are the ids and spans of the chain.
fn has_spans<L: Ledger>(chain: &Chain, list: &[(NodeId, Span)], steps: &mut Steps<L>) -> bool {
    let mut next = chain.first();
    for (id, span) in list {
        if next != Some(*id) || !is_listed(chain, *id) || chain.get(*id, steps) != *span {
            return false;
        }
        next = chain.next(*id);
    }
    next == None && chain.len() as usize == list.len()
}

/// Whether these are the ids of the chain, from the last one back.
fn has_ids_backwards(chain: &Chain, list: &[(NodeId, Span)]) -> bool {
    let mut prev = chain.last();
    for (id, _span) in list.iter().rev() {
        if prev != Some(*id) || !is_listed(chain, *id) {
            return false;
        }
        prev = chain.prev(*id);
    }
    prev == None
}

/// Whether a span of the chain has this id.
fn is_listed(chain: &Chain, id: NodeId) -> bool
    ensures { IsTrue result → IsListed chain.now.pairs id }
{
    let mut next = chain.first();
    for _place in 0..chain.len() {
        match next {
            Some(at) if at == id => return true,
            Some(at) => next = chain.next(at),
            None => return false,
        }
    }
    false
}

fn span(end: u64) -> Span {
    Span {
        start: 0,
        end,
        work: 1,
        spare: -2,
    }
}
