//! The line and the column of a byte of a text.
ghost use Rattle.std.specs.Option.{SomeIff};
ghost use Rattle.std.specs.Prelude.{◌≡◌, ◌+◌, ◌<◌, ◌^◌};
ghost use Rattle.elasticlunr_json_place.specs.Places.{is_first, place_at, IsLineStart};
ghost use Rattle.elasticlunr_json_place.specs.Whole.{below};

/// A line and a column, both from 1. A column is a character.
#[derive(Clone, Copy)]
pub struct Place {
    /// The line.
    pub line: usize,
    /// The column.
    pub column: usize,
}

/// The place of the byte at an offset of a text; beyond the text, that of its end.
pub fn place_at(text: &[u8], offset: usize) -> Place
    ensures { result ≡ place_at text.now offset }
{
    let before = &text[..offset.min(text.len())];
    let mut line = 1;
    let mut column = 1;
    for byte in before {
        if *byte == b'\n' {
            line += 1;
            column = 1;
        } else if is_first(*byte) {
            column += 1;
        }
    }
    Place { line, column }
}

/// The place so many lines below another one, where its line has a number.
pub fn below(lines: usize, place: Place) -> Option<Place>
    ensures { SomeIff result (lines + place.line < 2 ^ 64) (below lines place) }
{
    let line = lines.checked_add(place.line)?;
    Some(Place {
        line,
        column: place.column,
    })
}

/// The offset at which a line begins, from 1; the end of the text where it has fewer lines.
pub fn line_start(text: &[u8], line: usize) -> usize
    ensures { IsLineStart text.now line result }
{
    let mut here = 1;
    for (at, byte) in text.iter().enumerate() {
        if here >= line {
            return at;
        }
        if *byte == b'\n' {
            here += 1;
        }
    }
    text.len()
}

/// Whether a byte of UTF-8 begins a character.
fn is_first(byte: u8) -> bool
    ensures { result ≡ is_first byte }
{
    byte & 0xc0 != 0x80
}
