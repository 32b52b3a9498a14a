//! How each class of elements looks.

/// The style sheet of a staircase.
pub(crate) const STYLE: &str = "
text { font: 11px ui-monospace, 'DejaVu Sans Mono', monospace; fill: #222 }
.page { fill: #fff }
.what { fill: #555; font-style: italic }
.tick { text-anchor: middle; font-size: 10px; fill: #555 }
.side { text-anchor: end; font-size: 10px; fill: #555 }
.grid { fill: #e4e4e4 }
.zero { fill: #222 }
.bar { fill: #0072b2 }
";
