//! A number by which results are compared.

/// The digest of the texts that it took.
#[derive(Clone, Copy)]
pub struct Digest {
    pub value: u64,
}

impl Digest {
    /// Of no text. It is not 0, so that an empty text changes it, too.
    pub fn new() -> Digest {
        Digest {
            value: 0x9E37_79B9_7F4A_7C15,
        }
    }

    /// Takes a number.
    pub fn number(&mut self, number: u64) {
        let mixed = (self.value ^ number).wrapping_mul(0x9E37_79B9_7F4A_7C15);
        self.value = mixed ^ (mixed >> 29);
    }

    /// Takes a text, eight bytes at a time.
    pub fn text(&mut self, text: &str) {
        let (words, rest) = text.as_bytes().as_chunks::<8>();
        for word in words {
            self.number(u64::from_le_bytes(*word));
        }
        for byte in rest {
            self.number(*byte as u64);
        }
        self.number(text.len() as u64);
    }
}
