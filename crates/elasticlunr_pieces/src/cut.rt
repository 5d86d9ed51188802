//! Entries that are put together to pieces of about one size.
ghost use Rattle.std.specs.Prelude.{◌≡◌, ◌<◌, ◌^◌, ℕ, List, [], length, string_bytes, IfOk};
ghost use Rattle.std.specs.Prelude.{slice_index_or};
ghost use Rattle.elasticlunr_error.specs.Text.{Bytes};
ghost use Rattle.elasticlunr_pieces.specs.Steps.{Extends, IsCutAt, Stops};

use std::alloc::{AllocError, Global};

/// What pieces of one kind are made of, in order: the text of each entry, made when it is asked
/// for.
pub(crate) trait Entries {
    ghost texts: { Self → List Bytes };

    fn count(&self) -> usize
        ensures { result ≡ length (texts self.now) };

    fn text(&self, at: usize) -> Result<String, AllocError>
        requires { at < length (texts self.now) }
        ensures { IfOk result (λ text. string_bytes text ≡ slice_index_or (texts self.now) at []) };
}

/// The brackets of a piece, and how many bytes it may have.
#[derive(Clone, Copy)]
pub(crate) struct Form<'a> {
    pub(crate) opening: &'a str,
    pub(crate) closing: &'a str,
    pub(crate) size: usize,
}

/// The text of a piece, the number of the entry after it, and the text of that one where it was
/// made.
#[derive(Drop)]
pub(crate) struct Cut {
    pub(crate) text: String,
    pub(crate) next: usize,
    pub(crate) pending: Option<String>,
}

// Where a piece ends: the number of the next entry, and its text where it was made.
#[derive(Drop)]
struct Stop {
    next: usize,
    pending: Option<String>,
}

/// The piece that begins with an entry whose text this is.
pub(crate) fn cut_from<E: Entries>(
    alloc: Global,
    entries: &E,
    from: usize,
    first: &str,
    form: Form<'_>,
) -> Result<Cut, AllocError>
    requires there { from < length (E.texts entries.now) }
    requires small { length (E.texts entries.now) < 2 ^ 64 }
    ensures cut { IfOk result (λ cut. first.now ≡ slice_index_or (E.texts entries.now) from []
        → IsCutAt (E.texts entries.now) form.entry from cut) }
    ensures further { IfOk result (λ cut. from < cut.next) }
{
    let mut text = String::from_str(alloc, form.opening)?;
    text.push_str(first)?;
    let stop = extend(entries, from + 1, form, &mut text)?;
    text.push_str(form.closing)?;
    Ok(Cut {
        text,
        next: stop.next,
        pending: stop.pending,
    })
}

// Puts entries after a text, as long as there is room.
fn extend<E: Entries>(
    entries: &E,
    from: usize,
    form: Form<'_>,
    text: &mut String,
) -> Result<Stop, AllocError>
    ensures extends { IfOk result (λ stop. Extends (E.texts entries.now) form.entry from stop.next
        (string_bytes text.old) (string_bytes text.new)) }
    ensures stops { IfOk result (λ stop. Stops (E.texts entries.now) form.entry stop.next
        (string_bytes text.new) stop.pending) }
{
    let count = entries.count();
    let mut next = from;
    while next < count {
        let entry = entries.text(next)?;
        let room = form.size.saturating_sub(text.len());
        if entry.len() >= room.saturating_sub(form.closing.len()) {
            return Ok(Stop {
                next,
                pending: Some(entry),
            });
        }
        text.push_str(",")?;
        text.push_str(&entry)?;
        next += 1;
    }
    Ok(Stop {
        next,
        pending: None,
    })
}
