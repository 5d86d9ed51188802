//! Which folders of pieces are kept.
ghost use Rattle.std.specs.Prelude.{◌≡◌, ◌&&◌, ◌||◌, ◌<◌, ◌≤◌, ◌++◌, ◌∷◌, [], take, drop, not, option_map};
ghost use Rattle.std.specs.Prelude.{bytes_eq, false, true, length, IfOk, OnOk};
ghost use Rattle.elasticlunr_publish.specs.Heads.{AreHeads, AreKept, AreRemoved, ends_with};
ghost use Rattle.elasticlunr_publish.specs.Heads.{followed_by, is_listed, last_of, told_texts};
ghost use Rattle.elasticlunr_publish.specs.Names.{Bytes};

use std::alloc::{AllocError, Global};

/// The folders that are kept, that of the new head last: those of the last heads, so many at most.
/// `recorded` has the folders of heads in the order in which they came, and maybe one at its end
/// whose head never came; `current` is the folder of the head that is there.
pub fn kept_of<'a>(
    alloc: Global,
    recorded: &[&'a str],
    current: Option<&'a str>,
    new: &'a str,
    keep: usize,
) -> Result<Vec<&'a str>, AllocError>
    ensures { IfOk result (λ kept. AreKept (told_texts recorded.now)
        (option_map (λ it. it.now) current.entry) new.now keep (told_texts kept.items)) }
{
    let mut heads = heads_of(alloc, recorded, current)?;
    follow(&mut heads, new)?;
    let first = heads.len().saturating_sub(keep);
    copies_of(alloc, &heads[first..])
}

/// The folders that are known and aren't kept.
pub fn removed_of<'a>(
    alloc: Global,
    recorded: &[&'a str],
    current: Option<&'a str>,
    kept: &[&str],
) -> Result<Vec<&'a str>, AllocError>
    ensures { IfOk result (λ removed. AreRemoved (told_texts recorded.now)
        (option_map (λ it. it.now) current.entry) (told_texts kept.now) (told_texts removed.items)) }
{
    let mut removed = Vec::new(alloc);
    for name in recorded {
        remove_unless(kept, *name, &mut removed)?;
    }
    if let Some(name) = current {
        remove_unless(kept, name, &mut removed)?;
    }
    Ok(removed)
}

// Puts a name that isn't kept into those that are removed, once.
fn remove_unless<'a>(
    kept: &[&str],
    name: &'a str,
    removed: &mut Vec<&'a str>,
) -> Result<(), AllocError>
    ensures { OnOk result ((other : Bytes) → is_listed other (told_texts removed.new.items)
        ≡ (is_listed other (told_texts removed.old.items)
        || (bytes_eq other name.now && not (is_listed other (told_texts kept.now))))) }
{
    if is_listed(kept, name) || is_listed(removed, name) {
        return Ok(());
    }
    removed.push(name)?;
    Ok(())
}

// The folders of the heads so far.
fn heads_of<'a>(
    alloc: Global,
    recorded: &[&'a str],
    current: Option<&'a str>,
) -> Result<Vec<&'a str>, AllocError>
    ensures { IfOk result (λ heads. AreHeads (told_texts recorded.now)
        (option_map (λ it. it.now) current.entry) (told_texts heads.items)) }
{
    let Some(current) = current else {
        return copies_of(alloc, recorded);
    };
    let end = end_of(recorded, current);
    if end > 0 {
        return copies_of(alloc, &recorded[..end]);
    }
    let mut heads = copies_of(alloc, recorded)?;
    heads.push(current)?;
    Ok(heads)
}

// How many names there are up to the last place of this one, 0 where it has none.
fn end_of(names: &[&str], name: &str) -> usize
    ensures within { result ≤ length names.now }
    ensures ends { 0 < result → ends_with name.now (take result (told_texts names.now)) ≡ true }
    ensures none { is_listed name.now (drop result (told_texts names.now)) ≡ false }
{
    let mut end = names.len();
    while end > 0 && *name != *names[end - 1] {
        end -= 1;
    }
    end
}

// Puts a folder after those of heads, unless it is the last already.
fn follow<'a>(heads: &mut Vec<&'a str>, new: &'a str) -> Result<(), AllocError>
    ensures { OnOk result (told_texts heads.new.items
        ≡ followed_by (told_texts heads.old.items) new.now) }
{
    if ends_with(heads, new) {
        return Ok(());
    }
    heads.push(new)?;
    Ok(())
}

fn ends_with(names: &[&str], name: &str) -> bool
    ensures { result ≡ ends_with name.now (told_texts names.now) }
{
    let count = names.len();
    count > 0 && *name == *names[count - 1]
}

fn is_listed(names: &[&str], name: &str) -> bool
    ensures { result ≡ is_listed name.now (told_texts names.now) }
{
    names.contains(&name)
}

// A list of the same texts.
fn copies_of<'a>(alloc: Global, names: &[&'a str]) -> Result<Vec<&'a str>, AllocError>
    ensures { IfOk result (λ copies. copies.items ≡ names.now) }
{
    Vec::from_slice(alloc, names)
}
