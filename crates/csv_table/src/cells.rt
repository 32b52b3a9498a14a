//! The fields of a row.

ghost use Rattle.std.specs.Prelude.{◌≡◌, [], decimal, pos, ◌-ℤ◌};
ghost use Rattle.std.specs.Fmt.{signed_decimal};
ghost use Rattle.csv_table.specs.Cells.{content_text, optional_text};

use itoa::Buffer;
use std::marker::Model;

/// What a field holds.
#[derive(Drop)]
enum Content<'a> {
    Empty,
    Number(u64),
    Signed(i128),
    Text(&'a [u8]),
}

/// A field of a row, which contracts see as its text.
#[derive(Drop)]
pub struct Cell<'a> {
    content: Content<'a>,
}

impl<'a> Model for Cell<'a> {
    ghost use Rattle.std.specs.Prelude.{ℕ, List};
    ghost use Rattle.csv_table.specs.Cells.{content_text};

    ghost Value = { List ℕ };

    ghost view = { λ c. content_text c.content };
}

impl<'a> Cell<'a> {
    /// The empty field.
    pub fn empty() -> Cell<'a>
        ensures { result ≡ [] }
    {
        Cell {
            content: Content::Empty,
        }
    }

    /// A number in decimal digits.
    pub fn number(n: u64) -> Cell<'a>
        ensures { result ≡ decimal n }
    {
        Cell {
            content: Content::Number(n),
        }
    }

    /// A number in decimal digits, after a `-` where it is below 0.
    pub fn signed(n: i64) -> Cell<'a>
        ensures { result ≡ signed_decimal n }
    {
        Cell {
            content: Content::Signed(i128::from(n)),
        }
    }

    /// The first number less the second, after a `-` where that is below 0.
    pub fn difference(a: u64, b: u64) -> Cell<'a>
        ensures { result ≡ signed_decimal (pos a -ℤ pos b) }
    {
        Cell {
            content: Content::Signed(i128::from(a) - i128::from(b)),
        }
    }

    /// A number in decimal digits, or the empty field where there is none.
    pub fn optional(n: Option<u64>) -> Cell<'a>
        ensures { result ≡ optional_text n }
    {
        match n {
            Some(n) => Cell::number(n),
            None => Cell::empty(),
        }
    }

    /// A text.
    pub fn text(bytes: &'a [u8]) -> Cell<'a>
        ensures { result ≡ bytes.now }
    {
        Cell {
            content: Content::Text(bytes),
        }
    }

    /// The bytes of the field, which stand in the buffer where it is a number.
    pub(crate) fn bytes<'b>(&'b self, digits: &'b mut Buffer) -> &'b [u8]
        ensures { result.now ≡ self.now }
    {
        match self.content {
            Content::Empty => &[],
            Content::Number(n) => digits.format(n).as_bytes(),
            Content::Signed(n) => digits.format(n).as_bytes(),
            Content::Text(bytes) => bytes,
        }
    }
}
