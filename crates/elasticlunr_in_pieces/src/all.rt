//! The head and all pieces of an index.
ghost use Rattle.std.specs.Prelude.{IfOk, IsOkUnless};
ghost use Rattle.elasticlunr_error.specs.declared.error.IndexError.TheVariants.{Memory};
ghost use Rattle.elasticlunr_in_pieces.specs.Folder.{HasFolder};

use elasticlunr_error::IndexError;
use elasticlunr_pieces::{Head, Piece, Pieces};
use elasticlunr_print::Parts;
use std::alloc::Global;

/// An index in pieces: its head, and its pieces in order.
#[derive(Drop)]
pub struct InPieces {
    pub head: Head,
    pub pieces: Vec<Piece>,
}

/// The head and all pieces of what is printed of an index, with the titles that are in a field. A
/// piece of the tries has at most so many bytes, as `Pieces::new` says.
pub fn in_pieces(
    alloc: Global,
    parts: Parts<'_>,
    title: &str,
    size: usize,
) -> Result<InPieces, IndexError>
    ensures made { IfOk result (HasFolder parts.entry title.now size) }
    ensures memory { IsOkUnless result Memory }
{
    let mut making = Pieces::new(alloc, parts, title, size)?;
    let mut pieces = Vec::new(alloc);
    while let Some(piece) = making.next_piece()? {
        pieces.push(piece)?;
    }
    let head = making.head()?;
    Ok(InPieces { head, pieces })
}
