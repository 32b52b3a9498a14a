//! Where the parts of a staircase lie, in pixels.

ghost use Rattle.std.specs.Prelude.{◌≡◌, ◌≤◌, ◌+◌, ◌-◌, ◌*◌};
ghost use Rattle.slot_core.specs.declared.TheConstants.{SLOT_LIMIT};
ghost use Rattle.view_stairs.specs.Bars.{bar_frame, bottom_of, width_of};

use svg_text::Frame;

/// The width and the height that a staircase has room in.
const PAGE: (u32, u32) = (1_000, 320);

/// The room to the left of the first bar, and above the highest one.
pub(crate) const LEFT: u32 = 60;

pub(crate) const TOP: u32 = 40;

/// The room to the right and below.
pub(crate) const MARGIN: u32 = 40;

/// The greatest width of a slot and height of a level.
const GREATEST: u32 = 16;

/// How wide a slot is and how high a level, over so many of each.
#[derive(Clone, Copy)]
pub(crate) struct Scale {
    pub slots: u32,
    pub levels: u32,
    pub slot: u32,
    pub level: u32,
}

impl Scale {
    /// A scale of so many slots and levels.
    pub(crate) fn new(slots: u32, levels: u32) -> Scale
        ensures slots { result.slots ≡ slots }
        ensures levels { result.levels ≡ levels }
        ensures wide { (1 ≤ result.slot) × (result.slot ≤ 16) }
        ensures high { (1 ≤ result.level) × (result.level ≤ 16) }
    {
        Scale {
            slots,
            levels,
            slot: (PAGE.0 / slots.max(1)).clamp(1, GREATEST),
            level: (PAGE.1 / levels.max(1)).clamp(1, GREATEST),
        }
    }

    /// The lower edge of the bars.
    pub(crate) fn bottom(&self) -> u32
        requires high { self.now.level ≤ 16 }
        requires few { self.now.levels ≤ SLOT_LIMIT }
        ensures { result ≡ bottom_of self.now }
    {
        TOP + self.levels * self.level
    }

    /// The width of the picture.
    pub(crate) fn width(&self) -> u32
        requires wide { self.now.slot ≤ 16 }
        requires few { self.now.slots ≤ SLOT_LIMIT }
        ensures { result ≡ width_of self.now }
    {
        LEFT + self.slots * self.slot + MARGIN
    }

    /// The left edge of the bar of a number of slots.
    pub(crate) fn x(&self, within: u32) -> u32
        requires wide { self.now.slot ≤ 16 }
        requires few { within ≤ SLOT_LIMIT }
        ensures { result ≡ LEFT + (within - 1) * self.now.slot }
    {
        LEFT + within.saturating_sub(1) * self.slot
    }

    /// The bar of a number of slots and the supply within them.
    pub(crate) fn bar(&self, within: u32, supply: u32) -> Frame
        requires wide { self.now.slot ≤ 16 }
        requires high { self.now.level ≤ 16 }
        requires few { (within ≤ SLOT_LIMIT) × (supply ≤ SLOT_LIMIT) }
        requires low { self.now.levels ≤ SLOT_LIMIT }
        ensures { result ≡ bar_frame self.now within supply }
    {
        let height = supply * self.level;
        Frame {
            x: self.x(within),
            y: self.bottom().saturating_sub(height),
            width: self.slot,
            height,
        }
    }
}
