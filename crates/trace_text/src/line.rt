//! A line in the making.

ghost use Rattle.std.specs.Prelude.{◌≡◌, ℕ, ◌≤◌, ◌<◌, ◌+◌, [], ◌++◌, ◌-◌, ◌*◌, drop, length, take, decimal};
ghost use Rattle.std.specs.Fmt.{signed_decimal};
ghost use Rattle.trace_text.specs.declared.TheConstants.{DECIMAL_LIMIT, LINE_LIMIT};
ghost use Rattle.trace_text.specs.declared.line.TheConstants.{COPY_SIZE};
ghost use Rattle.trace_text.specs.declared.threes.TheConstants.{BLOCK_SIZE};

use crate::LINE_LIMIT;
use crate::threes::{BLOCK_SIZE, block_of, short_digits};
use itoa::write_digits;
use std::marker::Model;

/// How many bytes of a line are copied at once into another.
pub(crate) const COPY_SIZE: usize = 64;

/// Bytes of one line, at most `LINE_LIMIT`, which contracts see as a list. It takes no memory.
#[derive(Drop)]
pub struct Line {
    bytes: [u8; LINE_LIMIT],
    len: usize,
}

impl Model for Line {
    ghost use Rattle.std.specs.Prelude.{ℕ, List, ◌≤◌, take};
    ghost use Rattle.trace_text.specs.declared.TheConstants.{LINE_LIMIT};

    ghost Value = { List ℕ };

    ghost view = { λ l. take l.len l.bytes };

    ghost invariant = { λ l. l.len ≤ LINE_LIMIT };
}

impl Line {
    /// The empty line.
    pub fn new() -> Line
        ensures { result ≡ [] }
    {
        Line {
            bytes: [0; LINE_LIMIT],
            len: 0,
        }
    }

    /// Takes all bytes away.
    pub fn clear(&mut self)
        ensures { self.new ≡ [] }
    {
        self.len = 0;
    }

    /// Appends the bytes.
    #[inline]
    pub fn push(&mut self, bytes: &[u8])
        requires { length self.old + length bytes.now ≤ LINE_LIMIT }
        ensures { self.new ≡ self.old ++ bytes.now }
    {
        let start = self.len;
        for (i, byte) in bytes.iter().enumerate() {
            self.bytes[start + i] = *byte;
        }
        self.len = start + bytes.len();
    }

    /// Appends the first `count` bytes of a block, for all of which there is room.
    #[inline]
    pub(crate) fn push_block<const N: usize>(&mut self, block: [u8; N], count: usize)
        requires counted { count ≤ N }
        requires room { length self.old + N ≤ LINE_LIMIT }
        ensures { self.new ≡ self.old ++ take count block.entry }
    {
        let start = self.len;
        self.bytes[start..start + N].copy_from_slice(&block);
        self.len = start + count;
    }

    /// The same, to a line of this length. Returns its length afterwards, so that who appends many
    /// has no need to read it from the line each time.
    #[inline]
    pub(crate) fn push_block_at<const N: usize>(
        &mut self,
        len: usize,
        block: [u8; N],
        count: usize,
    ) -> usize
        requires length { len ≡ length self.old }
        requires counted { count ≤ N }
        requires room { length self.old + N ≤ LINE_LIMIT }
        ensures text { self.new ≡ self.old ++ take count block.entry }
        ensures length { result ≡ length self.new }
    {
        self.bytes[len..len + N].copy_from_slice(&block);
        self.len = len + count;
        len + count
    }

    /// Appends the number in decimal digits.
    pub fn number(&mut self, n: u64)
        requires { length self.old + DECIMAL_LIMIT ≤ LINE_LIMIT }
        ensures text { self.new ≡ self.old ++ decimal n }
        ensures short { length self.new ≤ length self.old + DECIMAL_LIMIT }
    {
        self.push_decimal(n);
    }

    /// Appends the number in decimal digits, after a `-` where it is below 0.
    pub fn signed_number(&mut self, n: i64)
        requires { length self.old + DECIMAL_LIMIT ≤ LINE_LIMIT }
        ensures text { self.new ≡ self.old ++ signed_decimal n }
        ensures short { length self.new ≤ length self.old + DECIMAL_LIMIT }
    {
        if n < 0 {
            self.push(b"-");
        }
        self.push_decimal(n.unsigned_abs());
    }

    /// Appends the number in decimal digits, for which there is room. The digits of one below a
    /// million, as most numbers of a line are, stand in a table.
    fn push_decimal(&mut self, n: u64)
        requires digits { length self.old + length (decimal n) ≤ LINE_LIMIT }
        requires blocks { length self.old + 2 * BLOCK_SIZE ≤ LINE_LIMIT }
        ensures { self.new ≡ self.old ++ decimal n }
    {
        match n {
            0..=999 => self.push_short(n),
            1000..=999_999 => self.push_thousands(n),
            _ => self.push_long(n),
        }
    }

    /// Appends the number, which is below 1000.
    #[inline(always)]
    fn push_short(&mut self, n: u64)
        requires below { n < 1000 }
        requires room { length self.old + BLOCK_SIZE ≤ LINE_LIMIT }
        ensures text { self.new ≡ self.old ++ decimal n }
        ensures short { length self.new ≤ length self.old + 3 }
    {
        let (digits, count) = short_digits(n);
        self.push_block(digits, count);
    }

    /// Appends the number, which is from 1000 on and below a million.
    #[inline(always)]
    fn push_thousands(&mut self, n: u64)
        requires from { 1000 ≤ n }
        requires below { n < 1000000 }
        requires room { length self.old + 2 * BLOCK_SIZE ≤ LINE_LIMIT }
        ensures { self.new ≡ self.old ++ decimal n }
    {
        self.push_short(n / 1000);
        self.push_block(block_of(n % 1000), 3);
    }

    /// Appends the number, which is not below a million.
    #[inline(never)]
    fn push_long(&mut self, n: u64)
        requires from { 1000000 ≤ n }
        requires room { length self.old + length (decimal n) ≤ LINE_LIMIT }
        ensures { self.new ≡ self.old ++ decimal n }
    {
        self.push_digits(n, n.ilog10() as usize + 1);
    }

    /// Appends the number, which has this count of digits, in place.
    #[inline(always)]
    fn push_digits(&mut self, n: u64, count: usize)
        requires counted { length (decimal n) ≡ count }
        requires room { length self.old + length (decimal n) ≤ LINE_LIMIT }
        ensures { self.new ≡ self.old ++ decimal n }
    {
        let end = self.len + count;
        write_digits(n, &mut self.bytes, end);
        self.len = end;
    }

    /// The bytes from this place on, as a block: those of the line, and then any.
    #[inline]
    pub(crate) fn block_from<const N: usize>(&self, from: usize) -> [u8; N]
        requires inside { from ≤ length self.now }
        requires room { from + N ≤ LINE_LIMIT }
        ensures all { length self.now ≤ from + N
            → take (length self.now - from) result ≡ drop from self.now }
        ensures front { (count : ℕ) → count ≤ N → from + count ≤ length self.now
            → take count result ≡ take count (drop from self.now) }
    {
        let mut block = [0; N];
        block.copy_from_slice(&self.bytes[from..from + N]);
        block
    }

    /// Appends what stands in another line from this place on, in blocks: the last one may end past
    /// that line.
    #[inline]
    pub(crate) fn push_from(&mut self, other: &Line, from: usize)
        requires inside { from ≤ length other.now }
        requires there { length other.now + COPY_SIZE ≤ LINE_LIMIT }
        requires room { length self.old + (length other.now - from) + COPY_SIZE ≤ LINE_LIMIT }
        ensures { self.new ≡ self.old ++ drop from other.now }
    {
        let end = other.bytes().len();
        let mut place = from;
        while place < end {
            let count = (end - place).min(COPY_SIZE);
            self.push_block(other.block_from::<COPY_SIZE>(place), count);
            place += count;
        }
    }

    /// The bytes of the line.
    pub fn bytes(&self) -> &[u8]
        ensures { result.now ≡ self.now }
    {
        &self.bytes[..self.len]
    }
}
