//! A row of an arrivals file, as far as its arrival needs it.

ghost use Rattle.csv.specs.Records.{fields_of};
ghost use Rattle.arrival_csv.specs.Rows.{IsRowOf};

use csv::ByteRecord;

/// The fields of a row, where there are at most four, and otherwise the first two.
#[derive(Clone, Copy)]
pub(crate) enum Row<'a> {
    /// No field.
    Empty,
    /// One field.
    One(&'a [u8]),
    /// Two fields.
    Two(&'a [u8], &'a [u8]),
    /// Three fields.
    Three(&'a [u8], &'a [u8], &'a [u8]),
    /// Four fields.
    Four(&'a [u8], &'a [u8], &'a [u8], &'a [u8]),
    /// The first two of more than four fields.
    Longer(&'a [u8], &'a [u8]),
}

impl<'a> Row<'a> {
    /// The row of a record.
    pub(crate) fn of(row: &'a ByteRecord) -> Row<'a>
        ensures { IsRowOf result (fields_of row.now) }
    {
        let Some(first) = row.get(0) else {
            return Row::Empty;
        };
        let Some(second) = row.get(1) else {
            return Row::One(first);
        };
        let Some(third) = row.get(2) else {
            return Row::Two(first, second);
        };
        let Some(fourth) = row.get(3) else {
            return Row::Three(first, second, third);
        };
        match row.get(4) {
            None => Row::Four(first, second, third, fourth),
            Some(_) => Row::Longer(first, second),
        }
    }
}
