//! How words end: stems before suffixes, and the suffixes that the steps replace.
ghost use Rattle.std.specs.Prelude.{◌≡◌, ◌≢◌, ◌≤◌, ◌<◌, ◌++◌, ◌∷◌, ◌↔◌, [], List, ℕ, IsTrue};
ghost use Rattle.std.specs.Prelude.{length, chars, map, IfSome, IfNone, not, ◌==◌, string_len};
ghost use Rattle.std.specs.Prelude.{string_capacity, codes, ◌+◌};
ghost use Rattle.std.specs.List.{list_all};
ghost use Rattle.elasticlunr_text.specs.Stems.{IsStem, EndsWith, EndsAfterStem, HasNoCut, LastIs};
ghost use Rattle.elasticlunr_text.specs.Stems.{listed};
ghost use Rattle.elasticlunr_text.specs.Endings.{LosesLast, Exchanges, IsCutOf};
ghost use Rattle.elasticlunr_text.specs.Text.{text_of};
ghost use Rattle.elasticlunr_text.specs.Ascii.{all_ascii};

/// Whether the text is a stem: not empty, and without a line feed.
fn is_stem(text: &str) -> bool
    ensures { IsTrue result ↔ IsStem (chars text.now) }
{
    !text.is_empty() && has_no_line_feed(text)
}

fn has_no_line_feed(text: &str) -> bool
    ensures { result ≡ list_all (λ c. not (c == 10)) (chars text.now) }
{
    text.chars().all(|c| c != '\n')
}

/// What stands before the suffix, where that is a stem.
pub fn stem_before<'a>(word: &'a str, suffix: &str) -> Option<&'a str>
    requires { IsTrue (all_ascii suffix.now) }
    ensures stem { IfSome result (λ s. IsStem (chars s.now)) }
    ensures split { IfSome result (λ s. chars word.now ≡ chars s.now ++ suffix.now) }
    ensures none { IfNone result ((s : List ℕ) → IsStem s → chars word.now ≢ s ++ suffix.now) }
{
    let stem = word.strip_suffix(suffix)?;
    if is_stem(stem) { Some(stem) } else { None }
}

/// The last letter, and what stands before it.
pub fn split_last(text: &str) -> Option<(&str, char)>
    ensures split { IfSome result (λ p. chars text.now ≡ chars p.0.now ++ p.1 ∷ []) }
    ensures shorter { IfSome result (λ p. length p.0.now < length text.now) }
    ensures none { IfNone result (chars text.now ≡ []) }
{
    let mut letters = text.chars();
    let c = letters.next_back()?;
    Some((letters.as_str(), c))
}

/// The last letter, U+0000 of an empty text.
pub fn last_of(text: &str) -> char
    ensures { LastIs result (chars text.now) }
{
    match split_last(text) {
        Some((_, c)) => c,
        None => '\0',
    }
}

/// The stem and the letter that stand before the suffix.
pub fn stem_and_letter_before<'a>(word: &'a str, suffix: &str) -> Option<(&'a str, char)>
    requires { IsTrue (all_ascii suffix.now) }
    ensures stem { IfSome result (λ p. IsStem (chars p.0.now)) }
    ensures split { IfSome result (λ p. chars word.now ≡ chars p.0.now ++ p.1 ∷ suffix.now) }
    ensures none { IfNone result ((s : List ℕ) (c : ℕ) → IsStem s → chars word.now ≢ s ++ c
        ∷ suffix.now) }
{
    let front = word.strip_suffix(suffix)?;
    let (stem, c) = split_last(front)?;
    if is_stem(stem) { Some((stem, c)) } else { None }
}

/// What stands before the suffix.
pub fn before<'a>(word: &'a str, suffix: &str) -> Option<&'a str>
    requires { IsTrue (all_ascii suffix.now) }
    ensures split { IfSome result (λ s. chars word.now ≡ chars s.now ++ suffix.now) }
    ensures none { IfNone result (¬ (EndsWith suffix.now (chars word.now))) }
{
    word.strip_suffix(suffix)
}

/// Whether the word ends with the suffix.
pub fn ends_with(word: &str, suffix: &str) -> bool
    requires { IsTrue (all_ascii suffix.now) }
    ensures { IsTrue result ↔ EndsWith suffix.now (chars word.now) }
{
    before(word, suffix).is_some()
}

/// Whether the word is a stem and the suffix.
pub fn ends_after_stem(word: &str, suffix: &str) -> bool
    requires { IsTrue (all_ascii suffix.now) }
    ensures { IsTrue result ↔ EndsAfterStem suffix.now (chars word.now) }
{
    stem_before(word, suffix).is_some()
}

/// The word loses the suffix.
pub fn drop_suffix(word: &mut String, suffix: &str)
    requires ascii { IsTrue (all_ascii suffix.now) }
    requires ends { EndsWith suffix.now (text_of word.old) }
    ensures lost { text_of word.old ≡ text_of word.new ++ suffix.now }
    ensures length { string_len word.new + length suffix.now ≡ string_len word.old }
    ensures capacity { string_capacity word.new ≡ string_capacity word.old }
{
    word.truncate(word.len() - suffix.len());
}

/// The word loses its last letter.
pub fn drop_last(word: &mut String)
    requires { (front : List ℕ) × (c : ℕ) × (text_of word.old ≡ front ++ c ∷ []) }
    ensures { LosesLast (text_of word.old) (text_of word.new) }
{
    let _ = word.pop();
}

/// An `e` is appended, for which the word has room.
pub fn push_e(word: &mut String)
    requires { string_len word.old < string_capacity word.old }
    ensures { text_of word.new ≡ text_of word.old ++ codes "e" }
{
    word.push('e').unwrap();
}

/// Replaces the suffix, which isn't shorter, by the ending.
pub fn replace_suffix(word: &mut String, suffix: &str, ending: &str)
    requires ascii_suffix { IsTrue (all_ascii suffix.now) }
    requires ascii_ending { IsTrue (all_ascii ending.now) }
    requires shorter { length ending.now ≤ length suffix.now }
    requires ends { EndsWith suffix.now (text_of word.old) }
    ensures { Exchanges suffix.now ending.now (text_of word.old) (text_of word.new) }
{
    word.truncate(word.len() - suffix.len());
    word.push_str(ending).unwrap();
}

/// A word cut into a stem and a listed suffix, with what stands in the suffix's place.
#[derive(Clone, Copy)]
pub struct Cut<'a> {
    pub stem: &'a str,
    pub suffix: &'static str,
    pub ending: &'static str,
}

/// The cut with the shortest stem.
pub fn shortest_cut<'a>(word: &'a str, endings: &[(&'static str, &'static str)]) -> Option<Cut<'a>>
    requires { IsTrue (list_all (λ e. all_ascii e.0) (listed endings.now)) }
    ensures found { IfSome result (λ c. IsCutOf (listed endings.now) (chars word.now) c) }
    ensures none { IfNone result (HasNoCut (listed endings.now) (chars word.now)) }
{
    let mut best: Option<Cut<'a>> = None;
    for &(suffix, ending) in endings {
        let Some(stem) = stem_before(word, suffix) else {
            continue;
        };
        match best {
            Some(shortest) if suffix.len() <= shortest.suffix.len() => {}
            _ => {
                best = Some(Cut {
                    stem,
                    suffix,
                    ending,
                })
            }
        }
    }
    best
}
