//! The head and the pieces of the index of an input in the flat form.
ghost use Rattle.std.specs.Prelude.{◌≡◌, Err, IfErr, IfOk};
ghost use Rattle.elasticlunr_c_calls.specs.Pieces.{IsCutInto, IsNoCutting, IsTold};
ghost use Rattle.elasticlunr_flat.specs.declared.fault.FlatError.TheVariants.{Malformed, Memory};

use crate::documents::made_of;
use crate::language::InputLanguage;
use crate::make::Make;
use elasticlunr::{Index, IndexError};
use elasticlunr_flat::{FlatError, read_cutting};
use elasticlunr_in_pieces::{FormError, InPieces, flat_form, in_pieces};
use elasticlunr_job::answer::refusal_line;
use elasticlunr_job::outcome::{JobError, Refusal};
use std::alloc::Global;

/// How documents are answered whose index is cut into pieces.
#[derive(Clone, Copy)]
pub enum PiecesOutcome {
    /// The answer has the head and the pieces.
    Made,
    /// There are none, for this reason.
    Refused(Refusal),
    /// Four bytes can't count the bytes of one of their texts, or the pieces.
    TooLarge,
}

const TOO_LARGE: &str = "refused: too large for the flat form\n";

/// Makes the head and the pieces of an index.
#[derive(Clone, Copy)]
pub(crate) struct Cutter<'a> {
    /// The field of the titles.
    pub(crate) title: &'a str,
    /// How many bytes a piece may have.
    pub(crate) size: usize,
}

impl Make for Cutter<'_> {
    ghost use Rattle.elasticlunr_c_calls.specs.Folders.{HasFolderAfter};

    type Made = InPieces;

    ghost makes = { λ cutter. HasFolderAfter cutter.title.now cutter.size };

    fn make(&self, alloc: Global, index: &Index<InputLanguage>) -> Result<InPieces, IndexError> {
        let names = index.names()?;
        in_pieces(alloc, index.parts(&names)?, self.title, self.size)
    }
}

/// What answers where there are a head and pieces: their flat form, or that they don't fit into it.
fn told(alloc: Global, made: &InPieces) -> Result<(PiecesOutcome, Vec<u8>), FlatError>
    ensures ok { IfOk result (λ a. IsTold made.now a.0 a.1.items) }
    ensures err { IfErr result (λ fault. fault ≡ Memory) }
{
    match flat_form(alloc, made) {
        Ok(bytes) => Ok((PiecesOutcome::Made, bytes)),
        Err(FormError::TooLarge) => {
            let line = Vec::from_slice(alloc, TOO_LARGE.as_bytes())?;
            Ok((PiecesOutcome::TooLarge, line))
        }
        Err(FormError::Memory) => Err(FlatError::Memory),
    }
}

/// The outcome for bytes in the flat form, which have the field of the titles and the bytes of a
/// piece before the documents, and what answers them: the flat form of the head and the pieces of
/// the index, or the line of a refusal.
pub fn index_pieces(alloc: Global, bytes: &[u8]) -> Result<(PiecesOutcome, Vec<u8>), FlatError>
    ensures ok { IfOk result (λ a. IsCutInto bytes.now a.0 a.1.items) }
    ensures malformed { result ≡ Err Malformed → IsNoCutting bytes.now }
{
    let cutting = read_cutting(alloc, bytes)?;
    let cutter = Cutter {
        title: cutting.title,
        size: cutting.size as usize,
    };
    match made_of(alloc, &cutting.input, &cutter) {
        Ok(made) => told(alloc, &made),
        Err(JobError::Refused(refusal)) => {
            let line = Vec::from_slice(alloc, refusal_line(refusal).as_bytes())?;
            Ok((PiecesOutcome::Refused(refusal), line))
        }
        Err(JobError::Memory) => Err(FlatError::Memory),
    }
}
