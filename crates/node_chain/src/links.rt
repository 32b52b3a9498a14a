//! The links between the nodes of a block.

ghost use Rattle.std.specs.Prelude.{◌≡◌, ◌+◌, ◌<◌, length};
ghost use Rattle.node_chain.specs.Nodes.{node_at};
ghost use Rattle.node_chain.specs.Links.{joined, next_of, parted, prev_of, with_next, with_prev};

use crate::block::{Block, Node};
use slot_core::{Span, Steps};
use std::sync::ledger::Ledger;

/// The place that holds no span: before the first node, and after the last.
pub const ENDS: u32 = 0;

/// Takes the unused place for a span before the node at `after`, and returns the unused place that
/// it named. Two steps: the new node, and the one before it.
pub(crate) fn join<L: Ledger>(
    block: &mut Block,
    place: u32,
    after: u32,
    span: Span,
    steps: &mut Steps<L>,
) -> u32
    requires place { place < length block.old }
    requires after { after < length block.old }
    requires before { prev_of block.old after < length block.old }
    ensures block { block.new ≡ joined place after span block.old }
    ensures unused { result ≡ next_of block.old place }
    ensures two_steps { steps.new ≡ steps.old + 2 }
{
    let unused = block.node(place).next;
    let before = block.node(after).prev;
    let node = Node {
        next: after,
        prev: before,
        span,
    };
    block.set(place, node);
    steps.tick();
    set_next(block, before, place);
    steps.tick();
    set_prev(block, after, place);
    unused
}

/// Takes the first node out, and puts its place in front of the unused ones. Two steps: that node,
/// and the one after it.
pub(crate) fn part<L: Ledger>(block: &mut Block, unused: u32, steps: &mut Steps<L>) -> Node
    requires some { 0 < length block.old }
    requires first { next_of block.old 0 < length block.old }
    requires second { next_of block.old (next_of block.old 0) < length block.old }
    ensures block { block.new ≡ parted unused block.old }
    ensures node { result ≡ node_at block.old (next_of block.old 0) }
    ensures two_steps { steps.new ≡ steps.old + 2 }
{
    let place = block.node(ENDS).next;
    let node = block.node(place);
    steps.tick();
    set_next(block, ENDS, node.next);
    steps.tick();
    set_prev(block, node.next, ENDS);
    set_next(block, place, unused);
    node
}

/// The node at `place` comes before the one at `next`. Its span is not written.
pub(crate) fn set_next(block: &mut Block, place: u32, next: u32)
    requires { place < length block.old }
    ensures { block.new ≡ with_next place next block.old }
{
    let node = block.node(place);
    block.set_links(place, next, node.prev);
}

/// The node at `place` comes after the one at `prev`. Its span is not written.
fn set_prev(block: &mut Block, place: u32, prev: u32)
    requires { place < length block.old }
    ensures { block.new ≡ with_prev place prev block.old }
{
    let node = block.node(place);
    block.set_links(place, node.next, prev);
}
