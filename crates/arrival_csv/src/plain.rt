//! Empty lines of a text, and fields in which nothing is quoted.

ghost use Rattle.std.specs.Prelude.{◌≡◌, ◌≤◌, ◌+◌, ◌∷◌, [], true, IfSome, MatchOption, drop, length};
ghost use Rattle.std.specs.List.{position_or_len};
ghost use Rattle.csv.specs.Reading.{default_config, records, strip_bom};
ghost use Rattle.arrival_csv.specs.Rows.{ends_field, IsLastField};

/// Whether the first byte of the text, where it has one, starts no byte order mark.
pub(crate) fn is_unmarked(text: &[u8]) -> bool
    ensures { result ≡ true → strip_bom text.now ≡ text.now }
{
    let Some((first, _)) = cut_first(text) else {
        return true;
    };
    first != 0xEF
}

/// The text after the empty lines at its start, which are no rows.
pub(crate) fn after_empty_lines(text: &[u8]) -> &[u8]
    ensures { records default_config result.now ≡ records default_config text.now }
{
    let mut text = text;
    while let Some((b'\n', rest)) = cut_first(text) {
        text = rest;
    }
    text
}

/// The field that starts at this place of the text, where it is the last of its row and not quoted,
/// and the bytes after the row.
pub(crate) fn last_field(text: &[u8], start: usize) -> Option<(&[u8], &[u8])>
    requires { start ≤ length text.now }
    ensures { IfSome result (λ both. IsLastField text.now start both.0.now both.1.now) }
{
    let end = end_of_field(text, start);
    let field = &text[start..end];
    if end == text.len() {
        return Some((field, &text[end..]));
    }
    if text[end] != b'\n' {
        return None;
    }
    Some((field, &text[end + 1..]))
}

/// The place of the first byte from this place on that ends a field, or the end of the text.
fn end_of_field(text: &[u8], start: usize) -> usize
    requires { start ≤ length text.now }
    ensures within { result ≤ length text.now }
    ensures place { result ≡ start + position_or_len ends_field (drop start text.now) }
{
    let mut end = start;
    while end < text.len() && !ends_field(text[end]) {
        end += 1;
    }
    end
}

/// The first byte of the text and those after it.
fn cut_first(text: &[u8]) -> Option<(u8, &[u8])>
    ensures { MatchOption result (text.now ≡ []) (λ parts. text.now ≡ parts.0 ∷ parts.1.now) }
{
    let (first, rest) = text.split_first()?;
    Some((*first, rest))
}

/// Whether the byte ends a field, or only a reader of quotes and returns can tell.
fn ends_field(byte: u8) -> bool
    ensures { result ≡ ends_field byte }
{
    matches!(byte, b',' | b'\n' | b'"' | b'\r')
}
