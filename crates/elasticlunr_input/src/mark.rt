//! The byte order mark with which some programs begin a file.
ghost use Rattle.std.specs.Io.KnownBytes.{Consumes, IsAtEnd};
ghost use Rattle.std.specs.Prelude.{◌≡◌, ◌⊎◌, ◌∷◌, [], length, IfOk, IfErr, IfSome, IfNone};
ghost use Rattle.elasticlunr_input.specs.Mark.{without_mark};
ghost use Rattle.elasticlunr_diagnostics.specs.Messages.{IsMemoryOrDevice};

use elasticlunr_diagnostics::message::InputError;
use std::alloc::Global;
use std::io::{self, BufRead};

/// The text after the byte order mark, U+FEFF in UTF-8, that it begins with; the text itself where
/// it begins with none.
pub fn without_mark(text: &[u8]) -> &[u8]
    ensures { result.now ≡ without_mark text.now }
{
    match text {
        [0xef, 0xbb, 0xbf, rest @ ..] => rest,
        _ => text,
    }
}

/// The first three bytes that a reader gives, as many as a mark has; all of them where there are
/// fewer.
pub(crate) fn read_start<R: BufRead>(alloc: Global, reader: &mut R) -> Result<Vec<u8>, InputError>
    ensures taken { IfOk result (λ start.
        Consumes (R.remaining reader.old) (R.remaining reader.new) start.items) }
    ensures whole { IfOk result (λ start.
        (length start.items ≡ 3) ⊎ IsAtEnd (R.remaining reader.new)) }
    ensures err { IfErr result IsMemoryOrDevice }
{
    let mut start = Vec::with_capacity(alloc, 3)?;
    while start.len() < 3 {
        let Some(byte) = next_byte(reader)? else {
            return Ok(start);
        };
        start.push(byte)?;
    }
    Ok(start)
}

/// The next byte of a reader, if there is one.
fn next_byte<R: BufRead>(reader: &mut R) -> io::Result<Option<u8>>
    ensures some { IfOk result (λ found. IfSome found (λ byte.
        Consumes (R.remaining reader.old) (R.remaining reader.new) (byte ∷ []))) }
    ensures none { IfOk result (λ found. IfNone found
        (Consumes (R.remaining reader.old) (R.remaining reader.new) [])) }
    ensures end { IfOk result (λ found. IfNone found (IsAtEnd (R.remaining reader.new))) }
{
    let mut byte = [0];
    let count = reader.read(&mut byte)?;
    if count == 0 {
        Ok(None)
    } else {
        Ok(Some(byte[0]))
    }
}
