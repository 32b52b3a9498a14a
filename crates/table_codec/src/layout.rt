//! The layouts of a table: the widths of its fields.

ghost use Rattle.std.specs.Prelude.{◌≡◌};
ghost use Rattle.table_codec.specs.Grammar.{layout_1, layout_2, layout_of};

use crate::TableFault;

/// The width of a length or time.
#[derive(Clone, Copy)]
pub enum NumberWidth {
    /// Two bytes.
    Two,
    /// Four bytes.
    Four,
}

/// The width of a spare capacity.
#[derive(Clone, Copy)]
pub enum SpareWidth {
    /// Four bytes.
    Four,
    /// Eight bytes.
    Eight,
}

/// The layout of a table.
#[derive(Clone, Copy)]
pub struct Layout {
    /// Its version.
    pub version: u16,
    /// The width of a length or time.
    pub number: NumberWidth,
    /// The width of a spare capacity.
    pub spare: SpareWidth,
}

impl Layout {
    /// The first version.
    pub(crate) fn first() -> Layout
        ensures { result ≡ layout_1 }
    {
        Layout {
            version: 1,
            number: NumberWidth::Two,
            spare: SpareWidth::Four,
        }
    }

    /// The second version.
    pub(crate) fn second() -> Layout
        ensures { result ≡ layout_2 }
    {
        Layout {
            version: 2,
            number: NumberWidth::Four,
            spare: SpareWidth::Eight,
        }
    }

    /// The layout of a version.
    pub(crate) fn of(version: u16) -> Result<Layout, TableFault>
        ensures { result ≡ layout_of version }
    {
        match version {
            1 => Ok(Layout::first()),
            2 => Ok(Layout::second()),
            _ => Err(TableFault::BadVersion(version)),
        }
    }
}
