//! How each class of elements looks. Colours are those that Okabe and Ito chose to be told apart by
//! the colour-blind, two of them darker, each with a shade that is far lighter, also in grey.

/// The style sheet of a picture.
pub(crate) const STYLE: &str = "
text { font: 11px ui-monospace, 'DejaVu Sans Mono', monospace; fill: #222 }
.page { fill: #fff }
.name { text-anchor: end }
.again { font-size: 10px; fill: #777 }
.what { text-anchor: end; fill: #555; font-style: italic }
.tick { text-anchor: middle; font-size: 10px; fill: #555 }
.grid { fill: #e4e4e4 }
.edge { fill: #999 }
.zero { fill: #222 }
.task-a { fill: #0072b2 }
.task-b { fill: #6fc0ee }
.alarm-a { fill: #d55e00 }
.alarm-b { fill: #f6b48a }
.firm-a { fill: #00735a }
.firm-b { fill: #66c7a8 }
.soft-a { fill: #94487a }
.soft-b { fill: #dfa9ca }
.due { fill: #00735a }
.release, .deadline { fill: none; stroke: #222; stroke-width: 1.2 }
.deadline { stroke: #b00020 }
.mark, .open, .grey { stroke-width: 1.6; stroke-linejoin: round; stroke-linecap: round }
.mark { fill: #222; stroke: #222 }
.open { fill: none; stroke: #222 }
.grey { fill: none; stroke: #999 }
.first { fill: #c3d3df }
.least { fill: #222 }
";
