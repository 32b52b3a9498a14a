//! A block of nodes: their links side by side, then their spans.

ghost use Rattle.std.specs.Prelude.{◌≡◌, ◌+◌, ◌*◌, ◌≤◌, ◌<◌, ◌^◌, List, length, IfOk, slice_set};
ghost use Rattle.node_chain.specs.Nodes.{node_at, unused};
ghost use Rattle.node_chain.specs.Links.{span_of, with_span};
ghost use Rattle.node_chain.specs.Words.{links_word, span_place, span_in, span_words, with_span_words};

use crate::words::WordRow;
use slot_core::{Memory, Span};
use std::alloc::Global;
use std::marker::Model;

/// How many words a span takes: its start, its end, its work, and its spare capacity.
const SPAN_WORDS: usize = 4;

/// Which word of a span is its spare capacity.
const SPARE_WORD: usize = 3;

/// How many words a node takes: one for its links, and those of its span.
const NODE_WORDS: usize = 1 + SPAN_WORDS;

/// How many bits of a word a link takes.
const LINK_BITS: u32 = 32;

/// How many numbers there are for a link.
const LINK_COUNT: u64 = 1 << LINK_BITS;

/// A span with the places of the nodes before and after it.
#[derive(Clone, Copy)]
pub struct Node {
    pub(crate) next: u32,
    pub(crate) prev: u32,
    pub(crate) span: Span,
}

/// Nodes in words that are taken once. The links of all nodes stand side by side, a word for each
/// node, and their spans follow.
#[derive(Drop)]
pub struct Block {
    words: WordRow,
    count: u32,
}

impl Model for Block {
    ghost use Rattle.std.specs.Prelude.{◌≡◌, ◌+◌, ◌*◌, ◌≤◌, ◌^◌, List, length};
    ghost use Rattle.node_chain.specs.Words.{node_words, nodes_of};
    ghost use Rattle.node_chain.specs.declared.block.Node.{Node};

    ghost Value = { List Node };

    ghost view = { λ b. nodes_of b.words b.count };

    ghost invariant = { λ b. (length b.words ≡ node_words * b.count) × (b.count ≤ 2 ^ 20 + 1) };
}

impl Block {
    /// A block of this many unused nodes, each with the place after it.
    pub(crate) fn new(alloc: Global, count: u32) -> Result<Block, Memory>
        requires { count ≤ 2 ^ 20 + 1 }
        ensures { IfOk result (λ made. made ≡ unused count) }
    {
        let mut words = WordRow::new(alloc, NODE_WORDS * count as usize)?;
        for place in 0..count {
            words.put(place as usize, links_word(place + 1, 0));
        }
        Ok(Block { words, count })
    }

    /// How many nodes there are.
    pub(crate) fn count(&self) -> u32
        ensures count { result ≡ length self.now }
        ensures few { result ≤ 2 ^ 20 + 1 }
    {
        self.count
    }

    /// The node at a place.
    pub(crate) fn node(&self, place: u32) -> Node
        requires { place < length self.now }
        ensures { result ≡ node_at self.now place }
    {
        let links = self.words.word(place as usize);
        Node {
            next: (links % LINK_COUNT) as u32,
            prev: (links / LINK_COUNT) as u32,
            span: span_in(&self.words, span_place(self.count, place)),
        }
    }

    /// Puts a node at a place.
    pub(crate) fn set(&mut self, place: u32, node: Node)
        requires { place < length self.old }
        ensures { self.new ≡ slice_set self.old place node }
    {
        let links = links_word(node.next, node.prev);
        put_span(&mut self.words, span_place(self.count, place), node.span);
        self.words.put(place as usize, links);
    }

    /// Puts the links of the node at a place. Its span is not written.
    pub(crate) fn set_links(&mut self, place: u32, next: u32, prev: u32)
        requires { place < length self.old }
        ensures { self.new ≡ slice_set
            self.old place (record (node_at self.old place) { next = next; prev = prev }) }
    {
        self.words.put(place as usize, links_word(next, prev));
    }

    /// Puts a span at a place. The links there are not written.
    pub(crate) fn set_span(&mut self, place: u32, span: Span)
        requires { place < length self.old }
        ensures { self.new ≡ with_span place span self.old }
    {
        put_span(&mut self.words, span_place(self.count, place), span);
    }

    /// Gives the span at a place another capacity. No other word is written.
    pub(crate) fn set_spare(&mut self, place: u32, spare: i64)
        requires { place < length self.old }
        ensures { self.new
            ≡ with_span place (record (span_of self.old place) { spare = spare }) self.old }
    {
        let first = span_place(self.count, place);
        self.words.put(first + SPARE_WORD, spare.cast_unsigned());
    }
}

/// The links of a node in one word.
fn links_word(next: u32, prev: u32) -> u64
    ensures { result ≡ links_word next prev }
{
    next as u64 + prev as u64 * LINK_COUNT
}

/// Where the span of a place begins, behind the links of this many nodes.
fn span_place(count: u32, place: u32) -> usize
    ensures { result ≡ span_place count place }
{
    count as usize + SPAN_WORDS * place as usize
}

/// The span whose words begin at a place.
fn span_in(words: &WordRow, first: usize) -> Span
    requires words { first + span_words ≤ length words.now }
    requires small { first ≤ 2 ^ 23 }
    ensures { result ≡ span_in words.now first }
{
    Span {
        start: words.word(first),
        end: words.word(first + 1),
        work: words.word(first + 2),
        spare: words.word(first + 3).cast_signed(),
    }
}

/// Puts the words of a span from a place on.
fn put_span(words: &mut WordRow, first: usize, span: Span)
    requires words { first + span_words ≤ length words.old }
    requires small { first ≤ 2 ^ 23 }
    ensures { words.new ≡ with_span_words first span words.old }
{
    words.put(first, span.start);
    words.put(first + 1, span.end);
    words.put(first + 2, span.work);
    words.put(first + 3, span.spare.cast_unsigned());
}
