//! The seven steps of the English stemmer, each in the buffer of the word.
ghost use Rattle.std.specs.Prelude.{◌≡◌, ◌↔◌, ◌≤◌, ◌<◌, ◌∷◌, ℕ, List, IsTrue, length, chars};
ghost use Rattle.std.specs.Prelude.{string_len, string_capacity, codes, nat_le};
ghost use Rattle.std.specs.List.{list_all};
ghost use Rattle.elasticlunr_text.specs.Letters.{is_one_of};
ghost use Rattle.elasticlunr_text.specs.Endings.{SetsFirst, KeepsLengthAndRoom};
ghost use Rattle.elasticlunr_text.specs.Text.{text_of};
ghost use Rattle.elasticlunr_text.specs.Ascii.{all_ascii};
ghost use Rattle.elasticlunr_text.specs.Stems.{Tries, LosesEs, LosesS, EndsInEed, LosesAndMends};
ghost use Rattle.elasticlunr_text.specs.Stems.{GetsE, LosesDouble, ShortGetsE, YBecomesI};
ghost use Rattle.elasticlunr_text.specs.Stems.{DropsEnding, DropsIon, DropsE, StandsWithoutE};
ghost use Rattle.elasticlunr_text.specs.Stems.{DropsL, Step1a, Step1b, Mended, EndsInDouble};
ghost use Rattle.elasticlunr_text.specs.Stems.{Step1c, Replaces, Step2, Step3, Step4, Step5};
ghost use Rattle.elasticlunr_text.specs.Stems.{Steps, listed};
ghost use Rattle.std.specs.Bool.{OnFalse};

use super::blocks::{has_vowel, is_short, is_vowel, m_above_0, m_above_1, m_is_1};
use super::endings::{
    Cut, before, drop_last, drop_suffix, ends_after_stem, ends_with, last_of, push_e,
    replace_suffix, shortest_cut, split_last, stem_and_letter_before, stem_before,
};
use super::tables::{Ending, step_2_endings, step_3_endings, step_4_endings};

/// Writes the letter over the first one, which is ASCII too.
pub fn set_first(word: &mut String, letter: char)
    requires ascii { letter < 128 }
    requires first { (c : ℕ) × (rest : List ℕ) × (c < 128) × (text_of word.old ≡ c ∷ rest) }
    ensures { SetsFirst letter (text_of word.old) (text_of word.new) }
{
    let _ = word.remove(0);
    word.insert(0, letter).unwrap();
}

/// All steps, in order.
pub fn all(word: &mut String)
    ensures { Steps (text_of word.old) (text_of word.new) }
{
    step_1a(word);
    step_1b(word);
    step_1c(word);
    step_2(word);
    step_3(word);
    step_4(word);
    step_5(word);
}

// Each function below that answers a `bool` is one rule: it says whether the rule applied, and a
// word to which it doesn't apply stays.

fn step_1a(word: &mut String)
    ensures { Step1a (text_of word.old) (text_of word.new) }
{
    let _ = lose_es(word);
    let _ = lose_s(word);
}

fn lose_es(word: &mut String) -> bool
    ensures { Tries result LosesEs (text_of word.old) (text_of word.new) }
{
    if ends_after_stem(word, "sses") || ends_after_stem(word, "ies") {
        drop_suffix(word, "es");
        return true;
    }
    false
}

fn lose_s(word: &mut String) -> bool
    ensures { Tries result LosesS (text_of word.old) (text_of word.new) }
{
    let Some((_, c)) = stem_and_letter_before(word, "s") else {
        return false;
    };
    if c == 's' {
        return false;
    }
    drop_suffix(word, "s");
    true
}

fn step_1b(word: &mut String)
    ensures { Step1b (text_of word.old) (text_of word.new) }
{
    let _ = treat_eed(word) || lose_ending(word, "ed") || lose_ending(word, "ing");
}

fn treat_eed(word: &mut String) -> bool
    ensures { Tries result EndsInEed (text_of word.old) (text_of word.new) }
{
    let Some(stem) = stem_before(word, "eed") else {
        return false;
    };
    if m_above_0(stem) {
        drop_suffix(word, "d");
    }
    true
}

/// A stem with a vowel, and the suffix, becomes the stem, mended.
fn lose_ending(word: &mut String, suffix: &str) -> bool
    requires ascii { IsTrue (all_ascii suffix.now) }
    requires room { 0 < length suffix.now }
    ensures { Tries result (LosesAndMends suffix.now) (text_of word.old) (text_of word.new) }
{
    let Some(stem) = stem_before(word, suffix) else {
        return false;
    };
    if !has_vowel(stem) {
        return false;
    }
    drop_suffix(word, suffix);
    mend(word);
    true
}

fn mend(word: &mut String)
    requires { string_len word.old < string_capacity word.old }
    ensures { Mended (text_of word.old) (text_of word.new) }
{
    let _ = get_e(word) || lose_double(word) || get_e_if_short(word);
}

fn get_e(word: &mut String) -> bool
    requires { string_len word.old < string_capacity word.old }
    ensures applied { Tries result GetsE (text_of word.old) (text_of word.new) }
    ensures kept { OnFalse result (KeepsLengthAndRoom word.old word.new) }
{
    if ends_with(word, "at") || ends_with(word, "bl") || ends_with(word, "iz") {
        push_e(word);
        return true;
    }
    false
}

fn lose_double(word: &mut String) -> bool
    ensures applied { Tries result LosesDouble (text_of word.old) (text_of word.new) }
    ensures kept { OnFalse result (KeepsLengthAndRoom word.old word.new) }
{
    if is_double(word) {
        drop_last(word);
        return true;
    }
    false
}

fn get_e_if_short(word: &mut String) -> bool
    requires { string_len word.old < string_capacity word.old }
    ensures { Tries result ShortGetsE (text_of word.old) (text_of word.new) }
{
    if is_short(word) {
        push_e(word);
        return true;
    }
    false
}

fn is_double(word: &str) -> bool
    ensures { IsTrue result ↔ EndsInDouble (chars word.now) }
{
    let Some((front, last)) = split_last(word) else {
        return false;
    };
    let Some((_, before)) = split_last(front) else {
        return false;
    };
    before == last && !stays_double(last)
}

/// Whether the letter is one of `aeiouylsz`, which stay where they are doubled.
fn stays_double(c: char) -> bool
    ensures { result ≡ is_one_of (codes "aeiouylsz") c }
{
    matches!(c, 'a' | 'e' | 'i' | 'o' | 'u' | 'y' | 'l' | 's' | 'z')
}

fn step_1c(word: &mut String)
    ensures { Step1c (text_of word.old) (text_of word.new) }
{
    let _ = turn_y_into_i(word);
}

fn turn_y_into_i(word: &mut String) -> bool
    ensures { Tries result YBecomesI (text_of word.old) (text_of word.new) }
{
    let Some((_, c)) = stem_and_letter_before(word, "y") else {
        return false;
    };
    if is_vowel(c) {
        return false;
    }
    replace_suffix(word, "y", "i");
    true
}

fn step_2(word: &mut String)
    ensures { Step2 (text_of word.old) (text_of word.new) }
{
    let _ = replace_ending(word, step_2_endings(last_of(word)));
}

fn step_3(word: &mut String)
    ensures { Step3 (text_of word.old) (text_of word.new) }
{
    let _ = replace_ending(word, step_3_endings(last_of(word)));
}

fn replace_ending(word: &mut String, endings: &[Ending]) -> bool
    requires ascii_suffixes { IsTrue (list_all (λ e. all_ascii e.0) (listed endings.now)) }
    requires ascii_endings { IsTrue (list_all (λ e. all_ascii e.1) (listed endings.now)) }
    requires shorter { IsTrue (list_all (λ e. nat_le (length e.1) (length e.0))
        (listed endings.now)) }
    ensures { Tries result (Replaces (listed endings.now)) (text_of word.old) (text_of word.new) }
{
    let Some(
        Cut {
            stem,
            suffix,
            ending,
        },
    ) = shortest_cut(word, endings)
    else {
        return false;
    };
    if !m_above_0(stem) {
        return false;
    }
    replace_suffix(word, suffix, ending);
    true
}

fn step_4(word: &mut String)
    ensures { Step4 (text_of word.old) (text_of word.new) }
{
    let _ = drop_ending(word, step_4_endings(last_of(word))) || drop_ion(word);
}

fn drop_ending(word: &mut String, endings: &[Ending]) -> bool
    requires ascii_suffixes { IsTrue (list_all (λ e. all_ascii e.0) (listed endings.now)) }
    ensures { Tries result (DropsEnding (listed endings.now)) (text_of word.old) (text_of word.new) }
{
    let Some(Cut { stem, suffix, .. }) = shortest_cut(word, endings) else {
        return false;
    };
    if m_above_1(stem) {
        drop_suffix(word, suffix);
    }
    true
}

fn drop_ion(word: &mut String) -> bool
    ensures { Tries result DropsIon (text_of word.old) (text_of word.new) }
{
    if !ends_after_stem(word, "sion") && !ends_after_stem(word, "tion") {
        return false;
    }
    let Some(front) = before(word, "ion") else {
        return false;
    };
    if !m_above_1(front) {
        return false;
    }
    drop_suffix(word, "ion");
    true
}

fn step_5(word: &mut String)
    ensures { Step5 (text_of word.old) (text_of word.new) }
{
    let _ = drop_e(word);
    let _ = drop_l(word);
}

fn drop_e(word: &mut String) -> bool
    ensures { Tries result DropsE (text_of word.old) (text_of word.new) }
{
    let Some(stem) = stem_before(word, "e") else {
        return false;
    };
    if !stands_without_e(stem) {
        return false;
    }
    drop_suffix(word, "e");
    true
}

fn stands_without_e(stem: &str) -> bool
    ensures { IsTrue result ↔ StandsWithoutE (chars stem.now) }
{
    m_above_1(stem) || (m_is_1(stem) && !is_short(stem))
}

fn drop_l(word: &mut String) -> bool
    ensures { Tries result DropsL (text_of word.old) (text_of word.new) }
{
    if ends_with(word, "ll") && m_above_1(word) {
        drop_suffix(word, "l");
        return true;
    }
    false
}
