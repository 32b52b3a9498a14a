//! The fields of a table, from left to right.

ghost use Rattle.std.specs.Prelude.{◌≡◌, ◌≤◌, ◌<◌, IfOk, length};
ghost use Rattle.std.specs.Int.{w16, w32, w64};
ghost use Rattle.table_codec.specs.Readers.{Reads, ReadsAs, bytes_at, end_at};
ghost use Rattle.table_codec.specs.Forms.{bad_name, byte_form, name_form, number_form, one_up_to, signed_form, text_form, up_to};
ghost use Rattle.table_codec.specs.Grammar.{index_form, range_form, slots_form, spare_form};

use crate::TableFault;
use crate::layout::{Layout, NumberWidth, SpareWidth};
use slot_core::{Field, NAME_LIMIT, Name, Part, Place, TaskFault};
use std::marker::Model;

/// The bytes of a table that are not read yet.
#[derive(Drop)]
pub struct Input<'a> {
    left: &'a [u8],
    whole: u64,
}

impl<'a> Model for Input<'a> {
    ghost use Rattle.std.specs.Prelude.{◌≤◌, length};
    ghost use Rattle.table_codec.specs.Readers.{Unread};

    ghost Value = { Unread };

    ghost view = { λ i. record { whole = i.whole; left = i.left.now } };

    ghost invariant = { λ i. length i.left.now ≤ i.whole };
}

impl<'a> Input<'a> {
    /// All bytes of a table.
    pub(crate) fn of(bytes: &'a [u8]) -> Input<'a>
        ensures { result ≡ record { whole = length bytes.now; left = bytes.now } }
    {
        Input {
            left: bytes,
            whole: bytes.len() as u64,
        }
    }

    /// The next bytes, this many.
    pub(crate) fn bytes(&mut self, count: usize) -> Result<&'a [u8], TableFault>
        ensures reading { ReadsAs (λ bytes. bytes.now) (bytes_at count) result self.old self.new }
        ensures count { IfOk result (λ bytes. length bytes.now ≡ count) }
    {
        if self.left.len() < count {
            return Err(TableFault::Short(self.whole));
        }
        let (bytes, rest) = self.left.split_at(count);
        self.left = rest;
        Ok(bytes)
    }

    /// The next byte.
    fn byte(&mut self) -> Result<u8, TableFault>
        ensures { Reads byte_form.read result self.old self.new }
    {
        let bytes = self.bytes(1)?;
        Ok(bytes[0])
    }

    /// An index, a count or the version: a number of two bytes.
    pub(crate) fn index(&mut self) -> Result<u16, TableFault>
        ensures { Reads index_form.read result self.old self.new }
    {
        let bytes = self.bytes(2)?;
        Ok(u16::from_le_bytes([bytes[0], bytes[1]]))
    }

    /// A number of four bytes, as the count of jobs or spans.
    pub(crate) fn many(&mut self) -> Result<u32, TableFault>
        ensures { Reads (number_form w32).read result self.old self.new }
    {
        let bytes = self.bytes(4)?;
        Ok(u32::from_le_bytes([bytes[0], bytes[1], bytes[2], bytes[3]]))
    }

    /// A length or a time, in slots.
    pub(crate) fn slots(&mut self, layout: Layout) -> Result<u32, TableFault>
        ensures { Reads (slots_form layout).read result self.old self.new }
    {
        match layout.number {
            NumberWidth::Two => Ok(u32::from(self.index()?)),
            NumberWidth::Four => self.many(),
        }
    }

    /// A capacity of four bytes.
    fn short_capacity(&mut self) -> Result<i64, TableFault>
        ensures { Reads (signed_form w32).read result self.old self.new }
    {
        let bytes = self.bytes(4)?;
        let spare = i32::from_le_bytes([bytes[0], bytes[1], bytes[2], bytes[3]]);
        Ok(i64::from(spare))
    }

    /// A capacity of eight bytes.
    fn long_capacity(&mut self) -> Result<i64, TableFault>
        ensures { Reads (signed_form w64).read result self.old self.new }
    {
        let bytes = self.bytes(8)?;
        Ok(i64::from_le_bytes([
            bytes[0], bytes[1], bytes[2], bytes[3], bytes[4], bytes[5], bytes[6], bytes[7],
        ]))
    }

    /// A spare capacity, in slots.
    pub(crate) fn capacity(&mut self, layout: Layout) -> Result<i64, TableFault>
        ensures { Reads (spare_form layout).read result self.old self.new }
    {
        match layout.spare {
            SpareWidth::Four => self.short_capacity(),
            SpareWidth::Eight => self.long_capacity(),
        }
    }

    /// Refuses bytes that follow.
    pub(crate) fn end(&self) -> Result<(), TableFault>
        ensures { ReadsAs (λ _. tt) end_at result self.now self.now }
    {
        if !self.left.is_empty() {
            return Err(TableFault::Trailing(self.whole - self.left.len() as u64));
        }
        Ok(())
    }

    /// A length or a time of the task set, from `low` to `high`.
    pub(crate) fn within(
        &mut self,
        layout: Layout,
        part: Part,
        field: Field,
        low: u32,
        high: u32,
    ) -> Result<u32, TableFault>
        ensures reading { Reads (range_form layout part field low high).read
            result self.old self.new }
        ensures range { IfOk result (λ n. (low ≤ n) × (n ≤ high)) }
    {
        let number = self.slots(layout)?;
        if number < low || number > high {
            let place = Place { part, field };
            return Err(TableFault::BadSource(TaskFault::OutOfRange(place, i64::from(number))));
        }
        Ok(number)
    }

    /// A count of no more than `limit`.
    pub(crate) fn count(
        &mut self,
        part: Part,
        field: Field,
        limit: usize,
    ) -> Result<u16, TableFault>
        ensures reading { Reads (up_to part field limit).read result self.old self.new }
        ensures few { IfOk result (λ n. n ≤ limit) }
    {
        let count = self.index()?;
        if usize::from(count) > limit {
            let place = Place { part, field };
            return Err(TableFault::BadSource(TaskFault::TooMany(place, u32::from(count))));
        }
        Ok(count)
    }

    /// A count of one or more, and no more than `limit`.
    pub(crate) fn some(&mut self, part: Part, field: Field, limit: usize) -> Result<u16, TableFault>
        ensures { Reads (one_up_to part field limit).read result self.old self.new }
    {
        let count = self.count(part, field, limit)?;
        if count == 0 {
            let place = Place { part, field };
            return Err(TableFault::BadSource(TaskFault::Missing(place)));
        }
        Ok(count)
    }

    /// A name.
    pub(crate) fn name(&mut self, part: Part) -> Result<Name, TableFault>
        ensures { Reads (name_form part).read result self.old self.new }
    {
        let length = usize::from(self.byte()?);
        if length < 1 || length > NAME_LIMIT {
            return Err(bad_name(part));
        }
        self.text(part, length)
    }

    /// The text of a name of this length.
    fn text(&mut self, part: Part, length: usize) -> Result<Name, TableFault>
        ensures { Reads (text_form part length).read result self.old self.new }
    {
        let text = self.bytes(length)?;
        Name::of(text).ok_or(bad_name(part))
    }
}

/// The fault of a name that is none.
fn bad_name(part: Part) -> TableFault
    ensures { result ≡ bad_name part }
{
    TableFault::BadSource(TaskFault::BadName(Place {
        part,
        field: Field::Name,
    }))
}
