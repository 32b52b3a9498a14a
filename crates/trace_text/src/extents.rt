//! The extents of spans, which are their starts and ends, and their spare capacities, as texts that
//! are kept from line to line.

ghost use Rattle.std.specs.Prelude.{◌≡◌, ◌≤◌, ◌<◌, ◌+◌, ◌++◌, decimal, drop, length, true};
ghost use Rattle.std.specs.Fmt.{signed_decimal};
ghost use Rattle.trace_text.specs.declared.TheConstants.{DECIMAL_LIMIT, EXTENT_LIMIT, LINE_LIMIT, SPAN_LIMIT};
ghost use Rattle.trace_text.specs.declared.extents.TheConstants.{END_LIMIT, EXTENT_COUNT, EXTENT_SIZE, SPARE_COUNT, SPARE_SIZE};
ghost use Rattle.trace_text.specs.Extents.{end_text, extent_text};

use crate::DECIMAL_LIMIT;
use crate::line::Line;
use crate::words::push_number;
use slot_core::Span;
use std::array::from_fn;
use std::marker::Model;

/// How many texts of extents are kept: for the eight spans of a line, and others. While they are
/// made, some copies of all of them stand on the stack.
const EXTENT_COUNT: usize = 64;

/// An end is multiplied by 2 to the power of 31 over the golden ratio, and six bits of the product
/// are the place of its cell: so ends in equal steps, as those of periods are, have places that lie
/// apart.
const SPREAD: u64 = 1_327_217_885;

/// How many bits of the product stand below the place.
const SPREAD_SHIFT: u32 = 25;

/// How many texts of spare capacities are kept: the last byte of one is the place of its cell.
const SPARE_COUNT: usize = 256;

/// Most bytes of the text of an extent that is kept: two numbers of six digits each.
const EXTENT_SIZE: usize = 16;

/// Most bytes of the text of a spare capacity that is kept. It makes a cell of 32 bytes, as
/// `EXTENT_SIZE` makes one of 64, so that the address of a cell takes a shift.
const SPARE_SIZE: usize = 16;

/// Most bytes of the end of a span, between a dash and a colon.
pub(crate) const END_LIMIT: usize = 1 + DECIMAL_LIMIT + 1;

/// What writes spans.
pub(crate) trait SpanWriter {
    /// Appends the extent of the span, after a space and before a colon, and its spare capacity, to
    /// a line of this length. Returns its length afterwards.
    fn push_span(&mut self, line: &mut Line, len: usize, span: &Span) -> usize
        requires length { len ≡ length line.old }
        requires room { length line.old + SPAN_LIMIT ≤ LINE_LIMIT }
        ensures text { line.new ≡ line.old ++ extent_text span.now.start span.now.end
            ++ signed_decimal span.now.spare }
        ensures length { result ≡ length line.new }
        ensures short { length line.new ≤ length line.old + SPAN_LIMIT };

    /// The same for the first span of a line, but no length is handed over or returned. Mostly no
    /// span with such a start was shown before.
    fn push_first(&mut self, line: &mut Line, span: &Span)
        requires { length line.old + SPAN_LIMIT ≤ LINE_LIMIT }
        ensures text { line.new ≡ line.old ++ extent_text span.now.start span.now.end
            ++ signed_decimal span.now.spare }
        ensures short { length line.new ≤ length line.old + SPAN_LIMIT };

    /// Appends the number of the spans that are not shown.
    fn push_more(&mut self, line: &mut Line, more: u32)
        requires { length line.old + DECIMAL_LIMIT ≤ LINE_LIMIT }
        ensures text { line.new ≡ line.old ++ decimal more }
        ensures short { length line.new ≤ length line.old + DECIMAL_LIMIT };
}

/// Appends the extent of the span, made anew.
fn push_extent(line: &mut Line, span: &Span)
    requires { length line.old + SPAN_LIMIT ≤ LINE_LIMIT }
    ensures text { line.new ≡ line.old ++ extent_text span.now.start span.now.end }
    ensures short { length line.new ≤ length line.old + EXTENT_LIMIT }
{
    push_number(line, span.start);
    push_end(line, span.end);
}

/// Appends a dash, the end of a span and a colon, made anew.
fn push_end(line: &mut Line, end: u64)
    requires { length line.old + END_LIMIT ≤ LINE_LIMIT }
    ensures text { line.new ≡ line.old ++ end_text end }
    ensures short { length line.new ≤ length line.old + END_LIMIT }
{
    line.push(b"-");
    line.number(end);
    line.push(b":");
}

/// Makes each text anew.
#[derive(Drop)]
pub(crate) struct Anew;

impl SpanWriter for Anew {
    fn push_span(&mut self, line: &mut Line, _len: usize, span: &Span) -> usize {
        self.push_first(line, span);
        line.bytes().len()
    }

    fn push_first(&mut self, line: &mut Line, span: &Span) {
        push_extent(line, span);
        line.signed_number(span.spare);
    }

    fn push_more(&mut self, line: &mut Line, more: u32) {
        line.number(u64::from(more));
    }
}

/// The text of an extent, which contracts see as its start and its end.
#[derive(Drop)]
struct ExtentCell {
    start: u64,
    end: u64,
    bytes: [u8; EXTENT_SIZE],
    len: usize,
    /// The dash, the end and the colon, which stay where only the start is another.
    end_bytes: [u8; EXTENT_SIZE],
    end_len: usize,
}

impl Model for ExtentCell {
    ghost use Rattle.std.specs.Prelude.{◌≡◌, ◌≤◌, ℕ, take};
    ghost use Rattle.trace_text.specs.declared.extents.TheConstants.{EXTENT_SIZE};
    ghost use Rattle.trace_text.specs.Extents.{end_text, extent_text};

    ghost Value = { ℕ × ℕ };

    ghost view = { λ c. (c.start, c.end) };

    ghost invariant = { λ c.
        (c.len ≤ EXTENT_SIZE)
        × (take c.len c.bytes ≡ extent_text c.start c.end)
        × (c.end_len ≤ EXTENT_SIZE)
        × (take c.end_len c.end_bytes ≡ end_text c.end) };
}

impl ExtentCell {
    /// The text from 0 to 0.
    fn new() -> ExtentCell {
        let mut bytes = [0; EXTENT_SIZE];
        bytes[..5].copy_from_slice(b" 0-0:");
        let mut end_bytes = [0; EXTENT_SIZE];
        end_bytes[..3].copy_from_slice(b"-0:");
        ExtentCell {
            start: 0,
            end: 0,
            bytes,
            len: 5,
            end_bytes,
            end_len: 3,
        }
    }

    /// Whether it is the text of the extent of the span.
    #[inline]
    fn is_of(&self, span: &Span) -> bool
        ensures { result ≡ true → self.now ≡ (span.now.start, span.now.end) }
    {
        self.start == span.start && self.end == span.end
    }

    /// Appends the text, and then that of a spare capacity, to a line of this length. Returns its
    /// length afterwards.
    #[inline]
    fn push_with(&self, spare: &SpareCell, line: &mut Line, len: usize) -> usize
        requires length { len ≡ length line.old }
        requires room { length line.old + SPAN_LIMIT ≤ LINE_LIMIT }
        ensures text { line.new ≡ line.old ++ extent_text self.now.0 self.now.1
            ++ signed_decimal spare.now }
        ensures length { result ≡ length line.new }
        ensures short { length line.new ≤ length line.old + SPAN_LIMIT }
    {
        let middle = line.push_block_at(len, self.bytes, self.len);
        line.push_block_at(middle, spare.bytes, spare.len)
    }

    /// Appends the extent of the span, and keeps its text.
    #[inline(always)]
    fn renew(&mut self, line: &mut Line, span: &Span)
        requires { length line.old + SPAN_LIMIT ≤ LINE_LIMIT }
        ensures text { line.new ≡ line.old ++ extent_text span.now.start span.now.end }
        ensures short { length line.new ≤ length line.old + EXTENT_LIMIT }
    {
        let from = line.bytes().len();
        push_number(line, span.start);
        let dash = line.bytes().len();
        self.push_kept_end(line, span.end);
        self.keep(span, line, from, dash);
    }

    /// Appends the dash, this end and the colon, which are made anew where they are not those that
    /// are kept.
    #[inline]
    fn push_kept_end(&self, line: &mut Line, end: u64)
        requires { length line.old + END_LIMIT ≤ LINE_LIMIT }
        ensures text { line.new ≡ line.old ++ end_text end }
        ensures short { length line.new ≤ length line.old + END_LIMIT }
    {
        if self.end == end {
            line.push_block(self.end_bytes, self.end_len);
        } else {
            push_end(line, end);
        }
    }

    /// Keeps the text of the extent of the span, which stands in the line from this place on, where
    /// it is not too long. Its end stands there from the dash on.
    fn keep(&mut self, span: &Span, line: &Line, from: usize, dash: usize)
        requires order { from ≤ dash }
        requires inside { dash ≤ length line.now }
        requires room { dash + EXTENT_SIZE ≤ LINE_LIMIT }
        requires text { drop from line.now ≡ extent_text span.now.start span.now.end }
        requires end { drop dash line.now ≡ end_text span.now.end }
    {
        let len = line.bytes().len() - from;
        if len <= EXTENT_SIZE {
            self.bytes = line.block_from(from);
            self.start = span.start;
            self.end = span.end;
            self.len = len;
            self.end_bytes = line.block_from(dash);
            self.end_len = line.bytes().len() - dash;
        }
    }
}

/// The text of a spare capacity, which contracts see as the number.
#[derive(Drop)]
struct SpareCell {
    spare: i64,
    bytes: [u8; SPARE_SIZE],
    len: usize,
}

impl Model for SpareCell {
    ghost use Rattle.std.specs.Prelude.{◌≡◌, ◌≤◌, ℤ, take};
    ghost use Rattle.std.specs.Fmt.{signed_decimal};
    ghost use Rattle.trace_text.specs.declared.extents.TheConstants.{SPARE_SIZE};

    ghost Value = { ℤ };

    ghost view = { λ c. c.spare };

    ghost invariant = { λ c.
        (c.len ≤ SPARE_SIZE) × (take c.len c.bytes ≡ signed_decimal c.spare) };
}

impl SpareCell {
    /// The text of 0.
    fn new() -> SpareCell {
        let mut bytes = [0; SPARE_SIZE];
        bytes[..1].copy_from_slice(b"0");
        SpareCell {
            spare: 0,
            bytes,
            len: 1,
        }
    }

    /// Whether it is the text of this spare capacity.
    #[inline]
    fn is_of(&self, spare: i64) -> bool
        ensures { result ≡ true → self.now ≡ spare }
    {
        self.spare == spare
    }

    /// Appends the spare capacity, of which the text is made anew where it is not the one that is
    /// kept.
    #[inline]
    fn push_spare(&mut self, line: &mut Line, spare: i64)
        requires { length line.old + DECIMAL_LIMIT ≤ LINE_LIMIT }
        ensures text { line.new ≡ line.old ++ signed_decimal spare }
        ensures short { length line.new ≤ length line.old + DECIMAL_LIMIT }
    {
        if self.is_of(spare) {
            line.push_block(self.bytes, self.len);
        } else {
            self.renew(line, spare);
        }
    }

    /// Appends the spare capacity, and keeps its text.
    fn renew(&mut self, line: &mut Line, spare: i64)
        requires { length line.old + DECIMAL_LIMIT ≤ LINE_LIMIT }
        ensures text { line.new ≡ line.old ++ signed_decimal spare }
        ensures short { length line.new ≤ length line.old + DECIMAL_LIMIT }
    {
        let from = line.bytes().len();
        line.signed_number(spare);
        self.keep(spare, line, from);
    }

    /// Keeps the text of the spare capacity, which stands in the line from this place on, where it
    /// is not too long.
    fn keep(&mut self, spare: i64, line: &Line, from: usize)
        requires inside { from ≤ length line.now }
        requires room { from + SPARE_SIZE ≤ LINE_LIMIT }
        requires text { drop from line.now ≡ signed_decimal spare }
    {
        let len = line.bytes().len() - from;
        if len <= SPARE_SIZE {
            self.bytes = line.block_from(from);
            self.spare = spare;
            self.len = len;
        }
    }
}

/// The texts of extents, each in a cell that its end tells: so they stay where time passes and
/// spans go. And those of spare capacities, each in the cell of its own last byte.
#[derive(Drop)]
pub(crate) struct Cells {
    extents: [ExtentCell; EXTENT_COUNT],
    spares: [SpareCell; SPARE_COUNT],
}

impl Cells {
    /// Cells with the text from 0 to 0 and that of 0.
    pub(crate) fn new() -> Cells {
        Cells {
            extents: from_fn(|_| ExtentCell::new()),
            spares: from_fn(|_| SpareCell::new()),
        }
    }

    /// Appends the span, and keeps its texts. It stands apart, so that the loop over spans whose
    /// texts are kept stays small.
    #[inline(never)]
    fn push_anew(&mut self, line: &mut Line, span: &Span)
        requires { length line.old + SPAN_LIMIT ≤ LINE_LIMIT }
        ensures text { line.new ≡ line.old ++ extent_text span.now.start span.now.end
            ++ signed_decimal span.now.spare }
        ensures short { length line.new ≤ length line.old + SPAN_LIMIT }
    {
        self.extents[extent_place(span)].renew(line, span);
        self.spares[spare_place(span.spare)].push_spare(line, span.spare);
    }
}

/// The place of the cell of the extent of the span, which only its end tells.
#[inline]
fn extent_place(span: &Span) -> usize
    ensures { result < EXTENT_COUNT }
{
    (span.end.wrapping_mul(SPREAD) >> SPREAD_SHIFT) as usize % EXTENT_COUNT
}

/// The place of the cell of a spare capacity.
#[inline]
fn spare_place(spare: i64) -> usize
    ensures { result < SPARE_COUNT }
{
    spare.cast_unsigned() as usize % SPARE_COUNT
}

impl SpanWriter for Cells {
    #[inline]
    fn push_span(&mut self, line: &mut Line, len: usize, span: &Span) -> usize {
        let Cells { extents, spares } = &*self;
        let extent = &extents[extent_place(span)];
        let spare = &spares[spare_place(span.spare)];
        if extent.is_of(span) && spare.is_of(span.spare) {
            return extent.push_with(spare, line, len);
        }
        self.push_anew(line, span);
        line.bytes().len()
    }

    /// The text of its extent is not kept: mostly the next line shows it with another start or not
    /// at all.
    #[inline(always)]
    fn push_first(&mut self, line: &mut Line, span: &Span) {
        push_number(line, span.start);
        self.extents[extent_place(span)].push_kept_end(line, span.end);
        self.spares[spare_place(span.spare)].push_spare(line, span.spare);
    }

    /// A number of spans has the text of this many slots, which may be kept.
    #[inline]
    fn push_more(&mut self, line: &mut Line, more: u32) {
        let spare = i64::from(more);
        self.spares[spare_place(spare)].push_spare(line, spare);
    }
}
