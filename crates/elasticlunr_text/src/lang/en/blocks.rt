//! The five tests of the stemmer: how a word is made of blocks of vowels and consonants.
ghost use Rattle.std.specs.Prelude.{◌≡◌, ◌≤◌, ◌↔◌, IsTrue, chars, fold};
ghost use Rattle.elasticlunr_text.specs.Letters.{is_vowel, is_vowel_or_y, is_vowel_or_wxy};
ghost use Rattle.elasticlunr_text.specs.Blocks.{MAbove0, MAbove1, MIs1, HasVowel, IsShort};
ghost use Rattle.elasticlunr_text.specs.Reading.{place_after, rank, reading_after, places};
ghost use Rattle.elasticlunr_text.specs.Reading.{is_of_vowels, next_place, short_after};
ghost use Rattle.elasticlunr_text.specs.declared.lang.en.blocks.Place.{Place};
ghost use Rattle.elasticlunr_text.specs.declared.lang.en.blocks.Reading.TheVariants.{Start};

/// Whether the letter is one of `aeiou`.
pub fn is_vowel(c: char) -> bool
    ensures { result ≡ is_vowel c }
{
    matches!(c, 'a' | 'e' | 'i' | 'o' | 'u')
}

/// Whether the letter is one of `aeiouy`.
pub fn is_vowel_or_y(c: char) -> bool
    ensures { result ≡ is_vowel_or_y c }
{
    matches!(c, 'a' | 'e' | 'i' | 'o' | 'u' | 'y')
}

/// Whether the letter is one of `aeiouwxy`.
fn is_vowel_or_wxy(c: char) -> bool
    ensures { result ≡ is_vowel_or_wxy c }
{
    matches!(c, 'a' | 'e' | 'i' | 'o' | 'u' | 'w' | 'x' | 'y')
}

/// The block that a text, read as consonants, vowels, consonants and so on, ends in.
#[derive(Clone, Copy)]
enum Place {
    Onset,
    FirstVowels,
    FirstConsonants,
    SecondVowels,
    SecondConsonants,
}

impl Place {
    /// Whether the block is one of vowels.
    fn is_of_vowels(self) -> bool
        ensures { result ≡ is_of_vowels self }
    {
        matches!(self, Place::FirstVowels | Place::SecondVowels)
    }

    /// The block that follows. What follows the last one belongs to it.
    fn next(self) -> Place
        ensures { result ≡ next_place self }
    {
        match self {
            Place::Onset => Place::FirstVowels,
            Place::FirstVowels => Place::FirstConsonants,
            Place::FirstConsonants => Place::SecondVowels,
            Place::SecondVowels => Place::SecondConsonants,
            Place::SecondConsonants => Place::SecondConsonants,
        }
    }

    /// The block after one more letter. No branch depends on the letter: a processor predicts
    /// branches, and the letters of a word have no pattern that it could learn.
    fn after(self, c: char) -> Place
        ensures { result ≡ place_after self c }
    {
        let ends = if self.is_of_vowels() {
            !is_vowel(c)
        } else {
            is_vowel_or_y(c)
        };
        if ends { self.next() } else { self }
    }

    fn has_vowel(self) -> bool
        ensures { IsTrue result ↔ (1 ≤ rank self) }
    {
        !matches!(self, Place::Onset)
    }

    fn is_m_above_0(self) -> bool
        ensures { IsTrue result ↔ (2 ≤ rank self) }
    {
        !matches!(self, Place::Onset | Place::FirstVowels)
    }

    fn is_m_1(self) -> bool
        ensures { IsTrue result ↔ ((2 ≤ rank self) × (rank self ≤ 3)) }
    {
        matches!(self, Place::FirstConsonants | Place::SecondVowels)
    }

    fn is_m_above_1(self) -> bool
        ensures { IsTrue result ↔ (4 ≤ rank self) }
    {
        matches!(self, Place::SecondConsonants)
    }
}

/// Both readings of a text, side by side: its first `y` as a vowel, and as a consonant.
#[derive(Clone, Copy)]
enum Reading {
    Start,
    Inside(Place, Place),
}

impl Reading {
    /// The reading of a text with this first letter alone.
    fn first(c: char) -> Reading
        ensures { result ≡ reading_after Start c }
    {
        if c == 'y' {
            return Reading::Inside(Place::FirstVowels, Place::Onset);
        }
        let place = Place::Onset.after(c);
        Reading::Inside(place, place)
    }

    /// One letter further.
    fn after(self, c: char) -> Reading
        ensures { result ≡ reading_after self c }
    {
        match self {
            Reading::Start => Reading::first(c),
            Reading::Inside(vowel, consonant) => {
                Reading::Inside(vowel.after(c), consonant.after(c))
            }
        }
    }

    /// The places that the two readings end in.
    fn places(self) -> (Place, Place)
        ensures { result ≡ places self }
    {
        match self {
            Reading::Start => (Place::Onset, Place::Onset),
            Reading::Inside(vowel, consonant) => (vowel, consonant),
        }
    }
}

fn read(text: &str) -> Reading
    ensures { result ≡ fold reading_after Reading.Start (chars text.now) }
{
    text.chars()
        .fold(Reading::Start, |reading, c| reading.after(c))
}

/// Whether the text is `[C] V C rest`: a C block or nothing, a V block, a C block and any rest.
///
/// A C block has a first letter that is none of `aeiou`, and others that are none of `aeiouy`; a V
/// block has a first letter that is one of `aeiouy`, and others that are each one of `aeiou`. A
/// first `y` may open either: one split of the text is enough. One pass, no memory.
pub fn m_above_0(text: &str) -> bool
    ensures { IsTrue result ↔ MAbove0 (chars text.now) }
{
    let (vowel, consonant) = read(text).places();
    vowel.is_m_above_0() || consonant.is_m_above_0()
}

/// Whether the text is `[C] V C V C rest`, with the blocks of `m_above_0`. One pass, no memory.
pub fn m_above_1(text: &str) -> bool
    ensures { IsTrue result ↔ MAbove1 (chars text.now) }
{
    let (vowel, consonant) = read(text).places();
    vowel.is_m_above_1() || consonant.is_m_above_1()
}

/// Whether the text is `[C] V C` or `[C] V C V`, with the blocks of `m_above_0`. One pass, no
/// memory.
pub fn m_is_1(text: &str) -> bool
    ensures { IsTrue result ↔ MIs1 (chars text.now) }
{
    let (vowel, consonant) = read(text).places();
    vowel.is_m_1() || consonant.is_m_1()
}

/// Whether the text is a C block or nothing, one of `aeiouy`, and any rest. One pass, no memory.
pub fn has_vowel(text: &str) -> bool
    ensures { IsTrue result ↔ HasVowel (chars text.now) }
{
    let (vowel, consonant) = read(text).places();
    vowel.has_vowel() || consonant.has_vowel()
}

/// How much a text has of a C block, one of `aeiouy` and one letter that is none of `aeiouwxy`.
#[derive(Clone, Copy)]
enum Short {
    Begun,
    Consonants,
    Vowel,
    Whole,
    Other,
}

impl Short {
    fn after(self, c: char) -> Short
        ensures { result ≡ short_after self c }
    {
        match self {
            Short::Begun if !is_vowel(c) => Short::Consonants,
            Short::Consonants if is_vowel_or_y(c) => Short::Vowel,
            Short::Consonants => Short::Consonants,
            Short::Vowel if !is_vowel_or_wxy(c) => Short::Whole,
            _ => Short::Other,
        }
    }
}

fn read_short(text: &str) -> Short
    ensures { result ≡ fold short_after Short.Begun (chars text.now) }
{
    text.chars().fold(Short::Begun, |short, c| short.after(c))
}

/// Whether the text is a C block, one of `aeiouy`, and one last character that is none of
/// `aeiouwxy`. One pass, no memory.
pub fn is_short(text: &str) -> bool
    ensures { IsTrue result ↔ IsShort (chars text.now) }
{
    matches!(read_short(text), Short::Whole)
}
