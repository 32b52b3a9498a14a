//! Where the parts of a picture lie, in pixels.

ghost use Rattle.std.specs.Prelude.{◌≡◌, ◌≤◌, ◌+◌, ◌-◌, ◌*◌};
ghost use Rattle.view_picture.specs.declared.layout.TheConstants.{FAR, GREATEST_SLOT, LEAST_SLOT, LETTER, MARGIN, MOST_LETTERS, ROW, TOP_LIMIT};
ghost use Rattle.view_picture.specs.Places.{after_steps, x_of};

/// No place is further to the right or below.
pub(crate) const FAR: u64 = 1_000_000;

/// The first row is no further below.
pub(crate) const TOP_LIMIT: u32 = 4_000;

/// No label is given room for more letters.
pub(crate) const MOST_LETTERS: usize = 100;

/// No more lines of the legend, nor lanes of arrivals, are given room.
const MOST_LINES: usize = 100;

/// The width that a picture of 200 slots has room in: that of a page on its side.
const PAGE: u32 = 1_040;

/// Between the edge and what is drawn.
pub(crate) const MARGIN: u32 = 12;

/// The least width of a slot, and the greatest.
pub(crate) const LEAST_SLOT: u32 = 3;

pub(crate) const GREATEST_SLOT: u32 = 16;

/// So many slots are seen at once: a longer picture has the labels of its rows again.
pub(crate) const LABEL_SLOTS: u32 = 200;

/// The width of a letter.
pub(crate) const LETTER: u32 = 7;

/// The heights of a line of the legend, of a lane of arrivals, of a row, and of the capacities.
pub(crate) const LEGEND: u32 = 18;

pub(crate) const LANE: u32 = 16;

pub(crate) const ROW: u32 = 18;

/// The height of a block, and the place of its upper edge in a row.
pub(crate) const BLOCK: u32 = 13;

pub(crate) const ABOVE: u32 = 3;

pub(crate) const CAPACITIES: u32 = 96;

/// Where time begins, and how wide a slot is.
#[derive(Clone, Copy)]
pub(crate) struct Times {
    pub first: u32,
    pub slots: u32,
    pub left: u32,
    pub slot: u32,
}

impl Times {
    /// So many slots from the first on, to the right of labels of at most so many letters.
    pub(crate) fn new(first: u32, slots: u32, letters: usize) -> Times
        requires { letters ≤ MOST_LETTERS }
        ensures first { result.first ≡ first }
        ensures count { result.slots ≡ slots }
        ensures wide { LEAST_SLOT ≤ result.slot }
        ensures narrow { result.slot ≤ GREATEST_SLOT }
        ensures left { result.left ≤ 2 * MARGIN + MOST_LETTERS * LETTER }
    {
        let left = down(2 * MARGIN, letters, LETTER);
        let room = PAGE.saturating_sub(left + MARGIN);
        Times {
            first,
            slots,
            left,
            slot: (room / slots.max(1)).clamp(LEAST_SLOT, GREATEST_SLOT),
        }
    }

    /// The left edge of the slot of this time.
    pub(crate) fn x(&self, time: u64) -> u32
        ensures place { result ≡ x_of self.now time }
        ensures near { result ≤ FAR }
    {
        steps(
            self.left,
            time.saturating_sub(u64::from(self.first)),
            self.slot,
        )
    }

    /// The width of the slots [start, end).
    pub(crate) fn width(&self, start: u64, end: u64) -> u32
        ensures { result ≡ x_of self.now end - x_of self.now start }
    {
        self.x(end).saturating_sub(self.x(start))
    }

    /// The time after the last slot.
    pub(crate) fn end(&self) -> u64
        ensures { result ≡ self.now.first + self.now.slots }
    {
        u64::from(self.first) + u64::from(self.slots)
    }

    /// The right edge of the last slot.
    pub(crate) fn right(&self) -> u32
        ensures place { result ≡ x_of self.now (self.now.first + self.now.slots) }
        ensures near { result ≤ FAR }
    {
        self.x(self.end())
    }

    /// Whether a picture of so many slots has labels in more than one place.
    pub(crate) fn is_long(&self) -> bool {
        self.slots > LABEL_SLOTS
    }
}

/// Where the parts of a picture begin, from the top.
#[derive(Clone, Copy)]
pub(crate) struct Heights {
    pub lanes: u32,
    pub rows: u32,
    pub capacities: u32,
    pub bottom: u32,
}

impl Heights {
    /// The heights with so many lines of the legend, lanes of arrivals and rows.
    pub(crate) fn new(legend: usize, lanes: usize, rows: usize) -> Heights
        ensures high { result.rows ≤ TOP_LIMIT }
        ensures below { after_steps result.rows rows ROW ≤ result.bottom }
    {
        let first = down(MARGIN, legend.min(MOST_LINES), LEGEND) + 22;
        let second = down(first, lanes.min(MOST_LINES), LANE) + 8;
        let third = down(second, rows, ROW) + 14;
        Heights {
            lanes: first,
            rows: second,
            capacities: third,
            bottom: down(third, 1, CAPACITIES),
        }
    }
}

/// The place after so many steps from a place on.
pub(crate) fn down(from: u32, count: usize, step: u32) -> u32
    ensures place { result ≡ after_steps from count step }
    ensures near { result ≤ FAR }
{
    steps(from, count as u64, step)
}

/// The place after so many steps from a place on.
fn steps(from: u32, count: u64, step: u32) -> u32
    ensures place { result ≡ after_steps from count step }
    ensures near { result ≤ FAR }
{
    let way = count.saturating_mul(u64::from(step));
    let place = way.saturating_add(u64::from(from)).min(FAR);
    place as u32
}
