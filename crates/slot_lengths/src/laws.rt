//! What the lengths of a slot are, and how their rows are ordered.

ghost use Rattle.slot_lengths.specs.Laws.{EachLengthIsListed, PlacesOrderRows, SharesAreToldApart};

/// Each length within the range with which there is a set in slots is among those that are listed.
pub fn each_length_is_listed()
    ensures { EachLengthIsListed }
{}

/// Of two sets that fit, the one that needs less of its cycle has the lesser rank: no two shares of
/// cycles are so near that they are told alike.
pub fn shares_are_told_apart()
    ensures { SharesAreToldApart }
{}

/// The places of rows order them by their ranks, and the longer slot of two with one rank first.
pub fn places_order_rows()
    ensures { PlacesOrderRows }
{}
