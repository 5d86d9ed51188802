//! The name of the folder of pieces.
ghost use Rattle.std.specs.Prelude.{◌≡◌, ℕ, List, IfOk, string_bytes};
ghost use Rattle.sha2.specs.Hashers.{Holds256};
ghost use Rattle.elasticlunr_pieces.specs.Folder.{folder_of};

use sha2::{Digest, Sha256};
use std::alloc::{AllocError, Global};

/// The name of the folder whose files have the texts that were hashed.
pub(crate) fn folder_name(alloc: Global, hasher: Sha256) -> Result<String, AllocError>
    ensures { (texts : List ℕ) → Holds256 hasher texts
        → IfOk result (λ name. string_bytes name ≡ folder_of texts) }
{
    let digest = hasher.finalize();
    let mut name = String::from_str(alloc, "pieces-")?;
    let digits = hex::encode(alloc, &digest[..8])?;
    name.push_str(&digits)?;
    Ok(name)
}
