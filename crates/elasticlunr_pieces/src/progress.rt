//! How far the pieces of one kind were made, and the next one.
ghost use Rattle.std.specs.Prelude.{◌≡◌, ◌<◌, ◌^◌, [], None, length, string_bytes, IfOk, IfSome};
ghost use Rattle.std.specs.Prelude.{◌++◌, ◌∷◌, OnErr, OnOk};
ghost use Rattle.std.specs.Prelude.{slice_index_or};
ghost use Rattle.elasticlunr_pieces.specs.Progress.{IsMade, Stays};

use crate::cut::{Entries, Form, cut_from};
use crate::making::Piece;
use std::alloc::{AllocError, Global};

/// How far the pieces of one kind were made: the number of the next entry, its text where it was
/// made; where each piece begins, and how many bytes and entries it has.
#[derive(Drop)]
pub(crate) struct Progress {
    pub(crate) next: usize,
    pub(crate) pending: Option<String>,
    pub(crate) starts: Vec<usize>,
    pub(crate) sizes: Vec<usize>,
    pub(crate) counts: Vec<usize>,
}

impl Progress {
    pub(crate) fn new(alloc: Global) -> Progress
        ensures next { result.next ≡ 0 }
        ensures pending { result.pending ≡ None }
        ensures starts { result.starts.items ≡ [] }
        ensures sizes { result.sizes.items ≡ [] }
        ensures counts { result.counts.items ≡ [] }
    {
        Progress {
            next: 0,
            pending: None,
            starts: Vec::new(alloc),
            sizes: Vec::new(alloc),
            counts: Vec::new(alloc),
        }
    }
}

/// The next piece; its name begins with the letter.
pub(crate) fn next_of<E: Entries>(
    alloc: Global,
    entries: &E,
    progress: &mut Progress,
    form: Form<'_>,
    letter: &str,
) -> Result<Piece, AllocError>
    requires there { progress.old.next < length (E.texts entries.now) }
    requires small { length (E.texts entries.now) < 2 ^ 64 }
    ensures made { IfOk result (λ piece. IfSome progress.old.pending (λ text. string_bytes text
        ≡ slice_index_or (E.texts entries.now) progress.old.next [])
        → IsMade (E.texts entries.now) form.entry letter.now progress.old progress.new piece) }
    ensures further { OnOk result (progress.old.next < progress.new.next) }
    ensures err { OnErr result (Stays progress.old progress.new) }
{
    let first = first_text(entries, progress)?;
    let cut = cut_from(alloc, entries, progress.next, &first, form)?;
    let number = progress.starts.len();
    let name = format!(in alloc; "{letter}{number}.json")?;
    let count = cut.next.saturating_sub(progress.next);
    note_piece(progress, cut.text.as_bytes().len(), count)?;
    progress.next = cut.next;
    progress.pending = cut.pending;
    Ok(Piece {
        name,
        text: cut.text,
    })
}

// Notes where the next piece begins, and how many bytes and entries it has: all or nothing.
fn note_piece(progress: &mut Progress, size: usize, count: usize) -> Result<(), AllocError>
    ensures starts { OnOk result (progress.new.starts.items
        ≡ progress.old.starts.items ++ progress.old.next ∷ []) }
    ensures sizes { OnOk result (progress.new.sizes.items ≡ progress.old.sizes.items ++ size ∷ []) }
    ensures counts { OnOk result (progress.new.counts.items
        ≡ progress.old.counts.items ++ count ∷ []) }
    ensures stay_starts { OnErr result (progress.new.starts.items ≡ progress.old.starts.items) }
    ensures stay_sizes { OnErr result (progress.new.sizes.items ≡ progress.old.sizes.items) }
    ensures stay_counts { OnErr result (progress.new.counts.items ≡ progress.old.counts.items) }
    ensures next { progress.new.next ≡ progress.old.next }
    ensures pending { progress.new.pending ≡ progress.old.pending }
{
    progress.sizes.reserve(1)?;
    progress.counts.reserve(1)?;
    progress.starts.push(progress.next)?;
    progress.sizes.push(size)?;
    progress.counts.push(count)?;
    Ok(())
}

// The text of the next entry.
fn first_text<E: Entries>(entries: &E, progress: &Progress) -> Result<String, AllocError>
    requires { progress.now.next < length (E.texts entries.now) }
    ensures { IfOk result (λ text. IfSome progress.now.pending (λ held. string_bytes held
        ≡ slice_index_or (E.texts entries.now) progress.now.next [])
        → string_bytes text ≡ slice_index_or (E.texts entries.now) progress.now.next []) }
{
    match &progress.pending {
        Some(text) => text.clone(),
        None => entries.text(progress.next),
    }
}
