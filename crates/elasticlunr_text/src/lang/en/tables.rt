//! The suffixes that the English stemmer cuts or replaces, by step and by their last letter.
ghost use Rattle.std.specs.Prelude.{◌≡◌, IsTrue, length, nat_le};
ghost use Rattle.std.specs.List.{list_all};
ghost use Rattle.elasticlunr_text.specs.Ascii.{all_ascii};
ghost use Rattle.elasticlunr_text.specs.Stems.{listed};
ghost use Rattle.elasticlunr_text.specs.Suffixes.{ending_in, step_2_endings, step_3_endings};
ghost use Rattle.elasticlunr_text.specs.Suffixes.{step_4_endings};

/// A suffix, and what stands in its place.
pub type Ending = (&'static str, &'static str);

const STEP_2_L: [(&str, &str); 2] = [("ational", "ate"), ("tional", "tion")];

const STEP_2_I: [(&str, &str); 11] = [
    ("enci", "ence"),
    ("anci", "ance"),
    ("bli", "ble"),
    ("alli", "al"),
    ("entli", "ent"),
    ("eli", "e"),
    ("ousli", "ous"),
    ("aliti", "al"),
    ("iviti", "ive"),
    ("biliti", "ble"),
    ("logi", "log"),
];

const STEP_2_R: [(&str, &str); 2] = [("izer", "ize"), ("ator", "ate")];

const STEP_2_N: [(&str, &str); 2] = [("ization", "ize"), ("ation", "ate")];

const STEP_2_M: [(&str, &str); 1] = [("alism", "al")];

const STEP_2_S: [(&str, &str); 3] = [("iveness", "ive"), ("fulness", "ful"), ("ousness", "ous")];

const STEP_3_E: [(&str, &str); 3] = [("icate", "ic"), ("ative", ""), ("alize", "al")];

const STEP_3_I: [(&str, &str); 1] = [("iciti", "ic")];

const STEP_3_L: [(&str, &str); 2] = [("ical", "ic"), ("ful", "")];

const STEP_3_S: [(&str, &str); 1] = [("ness", "")];

const STEP_4_L: [(&str, &str); 1] = [("al", "")];

const STEP_4_E: [(&str, &str); 7] = [
    ("ance", ""),
    ("ence", ""),
    ("able", ""),
    ("ible", ""),
    ("ate", ""),
    ("ive", ""),
    ("ize", ""),
];

const STEP_4_R: [(&str, &str); 1] = [("er", "")];

const STEP_4_C: [(&str, &str); 1] = [("ic", "")];

const STEP_4_T: [(&str, &str); 4] = [("ant", ""), ("ement", ""), ("ment", ""), ("ent", "")];

const STEP_4_U: [(&str, &str); 1] = [("ou", "")];

const STEP_4_M: [(&str, &str); 1] = [("ism", "")];

const STEP_4_I: [(&str, &str); 1] = [("iti", "")];

const STEP_4_S: [(&str, &str); 1] = [("ous", "")];

/// The endings of step 2 whose suffix ends in the letter.
pub fn step_2_endings(last: char) -> &'static [Ending]
    ensures endings { listed result.now ≡ ending_in last step_2_endings }
    ensures ascii_suffixes { IsTrue (list_all (λ e. all_ascii e.0) (listed result.now)) }
    ensures ascii_endings { IsTrue (list_all (λ e. all_ascii e.1) (listed result.now)) }
    ensures shorter { IsTrue (list_all (λ e. nat_le (length e.1) (length e.0)) (listed result.now)) }
{
    match last {
        'l' => &STEP_2_L,
        'i' => &STEP_2_I,
        'r' => &STEP_2_R,
        'n' => &STEP_2_N,
        'm' => &STEP_2_M,
        's' => &STEP_2_S,
        _ => &[],
    }
}

/// The endings of step 3 whose suffix ends in the letter.
pub fn step_3_endings(last: char) -> &'static [Ending]
    ensures endings { listed result.now ≡ ending_in last step_3_endings }
    ensures ascii_suffixes { IsTrue (list_all (λ e. all_ascii e.0) (listed result.now)) }
    ensures ascii_endings { IsTrue (list_all (λ e. all_ascii e.1) (listed result.now)) }
    ensures shorter { IsTrue (list_all (λ e. nat_le (length e.1) (length e.0)) (listed result.now)) }
{
    match last {
        'e' => &STEP_3_E,
        'i' => &STEP_3_I,
        'l' => &STEP_3_L,
        's' => &STEP_3_S,
        _ => &[],
    }
}

/// The endings of step 4 whose suffix ends in the letter.
pub fn step_4_endings(last: char) -> &'static [Ending]
    ensures endings { listed result.now ≡ ending_in last step_4_endings }
    ensures ascii_suffixes { IsTrue (list_all (λ e. all_ascii e.0) (listed result.now)) }
    ensures ascii_endings { IsTrue (list_all (λ e. all_ascii e.1) (listed result.now)) }
    ensures shorter { IsTrue (list_all (λ e. nat_le (length e.1) (length e.0)) (listed result.now)) }
{
    match last {
        'l' => &STEP_4_L,
        'e' => &STEP_4_E,
        'r' => &STEP_4_R,
        'c' => &STEP_4_C,
        't' => &STEP_4_T,
        'u' => &STEP_4_U,
        'm' => &STEP_4_M,
        'i' => &STEP_4_I,
        's' => &STEP_4_S,
        _ => &[],
    }
}
