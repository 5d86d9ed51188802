//! The English trimmer.
ghost use Rattle.std.specs.Prelude.{◌≡◌, Some, IfOk, IsOk, option_map};
ghost use Rattle.elasticlunr_text.specs.Text.{text_of};
ghost use Rattle.elasticlunr_text.specs.Trimmed.{trimmed, is_word_char};

use crate::lang::common::Class;
use std::alloc::{AllocError, Global};

/// Cuts at both ends every character that is neither an ASCII letter, an ASCII digit nor `_`.
///
/// The answer is never `Ok(None)`: a token without such a character becomes the empty text. The
/// token is cut in its own buffer: no memory is requested.
pub fn trimmer(_alloc: Global, token: String) -> Result<Option<String>, AllocError>
    ensures left { IfOk result (λ left. option_map text_of left
        ≡ Some (trimmed is_word_char (text_of token))) }
    ensures always { IsOk result }
{
    Ok(Some(Class::Word.cut(token)))
}
