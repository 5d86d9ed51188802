//! The flat form of an index in pieces.
ghost use Rattle.std.specs.Prelude.{◌≡◌, ◌++◌, Err, IfOk, OnOk, map};
ghost use Rattle.elasticlunr_flat.specs.Flat.{IsList, IsNumber, IsText, flat_list, flat_number};
ghost use Rattle.elasticlunr_flat.specs.Flat.{flat_text};
ghost use Rattle.elasticlunr_in_pieces.specs.Folder.{file_told, folder_told, flat_file, flat_folder};
ghost use Rattle.elasticlunr_in_pieces.specs.Folder.{IsFlatFile, IsFlatFolder};
ghost use Rattle.elasticlunr_in_pieces.specs.declared.fault.FormError.TheVariants.{TooLarge};

use crate::all::InPieces;
use crate::fault::FormError;
use elasticlunr_pieces::Piece;
use std::alloc::Global;

/// The flat form of an index in pieces: the name of its folder, the text of its head, and a list of
/// its pieces, the name and the text of each.
pub fn flat_form(alloc: Global, index: &InPieces) -> Result<Vec<u8>, FormError>
    ensures fits { OnOk result (IsFlatFolder (folder_told index.now)) }
    ensures ok { IfOk result (λ bytes. bytes.items ≡ flat_folder (folder_told index.now)) }
    ensures too_large { result ≡ Err TooLarge → ¬ IsFlatFolder (folder_told index.now) }
{
    let mut out = Vec::new(alloc);
    put_text(index.head.folder.as_str(), &mut out)?;
    put_text(index.head.text.as_str(), &mut out)?;
    put_pieces(&index.pieces, &mut out)?;
    Ok(out)
}

/// Puts the list of pieces after these bytes.
fn put_pieces(pieces: &[Piece], out: &mut Vec<u8>) -> Result<(), FormError>
    ensures fits { OnOk result (IsList IsFlatFile (map file_told pieces.now)) }
    ensures ok { OnOk result (out.new.items
        ≡ out.old.items ++ flat_list flat_file (map file_told pieces.now)) }
    ensures too_large { result ≡ Err TooLarge → ¬ IsList IsFlatFile (map file_told pieces.now) }
{
    put_number(pieces.len(), out)?;
    for piece in pieces {
        put_file(piece, out)?;
    }
    Ok(())
}

/// Puts the name and the text of a piece after these bytes.
fn put_file(piece: &Piece, out: &mut Vec<u8>) -> Result<(), FormError>
    ensures fits { OnOk result (IsFlatFile (file_told piece.now)) }
    ensures ok { OnOk result (out.new.items ≡ out.old.items ++ flat_file (file_told piece.now)) }
    ensures too_large { result ≡ Err TooLarge → ¬ IsFlatFile (file_told piece.now) }
{
    put_text(piece.name.as_str(), out)?;
    put_text(piece.text.as_str(), out)
}

/// Puts a text after these bytes.
fn put_text(text: &str, out: &mut Vec<u8>) -> Result<(), FormError>
    ensures fits { OnOk result (IsText text.now) }
    ensures ok { OnOk result (out.new.items ≡ out.old.items ++ flat_text text.now) }
    ensures too_large { result ≡ Err TooLarge → ¬ IsText text.now }
{
    put_number(text.len(), out)?;
    out.extend_from_slice(text.as_bytes())?;
    Ok(())
}

/// Puts a number after these bytes, in four bytes.
fn put_number(number: usize, out: &mut Vec<u8>) -> Result<(), FormError>
    ensures fits { OnOk result (IsNumber number) }
    ensures ok { OnOk result (out.new.items ≡ out.old.items ++ flat_number number) }
    ensures too_large { result ≡ Err TooLarge → ¬ IsNumber number }
{
    if number > u32::MAX as usize {
        return Err(FormError::TooLarge);
    }
    out.extend_from_slice(&(number as u32).to_le_bytes())?;
    Ok(())
}
