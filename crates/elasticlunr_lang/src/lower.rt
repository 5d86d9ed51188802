//! Lower case.
ghost use Rattle.std.specs.Prelude.{◌≡◌, ◌+◌, ◌<◌, ◌∷◌, option_to_list};
ghost use Rattle.elasticlunr_lang.specs.Lower.{lower};

/// The character whose number is higher by this much.
fn moved(c: char, by: u32) -> char
    requires { c + by < 0xD800 }
    ensures { result ≡ c + by }
{
    char::from_u32(c as u32 + by).unwrap()
}

/// The character in lower case: one character, and a second one for U+0130 alone. Requests no
/// memory.
///
/// It changes ASCII letters, Latin letters up to U+017D, U+0218, U+021A and Cyrillic letters up to
/// U+042F. Every other character is unchanged, Greek and Armenian capitals among them.
#[tactic(auto, using(std::proofs::lemmas::Bool::Decides::nat_tests), unfolding(crate::specs::Lower::lower))]
pub fn lower_char(c: char) -> (char, Option<char>)
    ensures { lower c ≡ result.0 ∷ option_to_list result.1 }
{
    let code = c as u32;
    match code {
        0x130 => ('i', Some('\u{307}')),
        0x178 => ('ÿ', None),
        0x179 | 0x17B | 0x17D | 0x218 | 0x21A => (moved(c, 1), None),
        0x100..=0x137 | 0x14A..=0x177 if code % 2 == 0 => (moved(c, 1), None),
        0x139..=0x148 if code % 2 == 1 => (moved(c, 1), None),
        0x41..=0x5A | 0xC0..=0xD6 | 0xD8..=0xDE | 0x410..=0x42F => (moved(c, 32), None),
        0x400..=0x40F => (moved(c, 80), None),
        _ => (c, None),
    }
}
