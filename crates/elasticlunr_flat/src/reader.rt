//! Numbers and texts at the front of bytes.

ghost use Rattle.std.specs.Prelude.{IfOk, OnErr};
ghost use Rattle.elasticlunr_flat.specs.Flat.{IsNumber, IsText, flat_number, flat_text, flat_truth};
ghost use Rattle.elasticlunr_flat.specs.Reading.{IsAnyTruth, IsRead, BeginsWithNone};

use crate::fault::NotFlat;

/// The bytes that are still to be read. After an error nothing more is read.
#[derive(Drop)]
pub(crate) struct Reader<'a> {
    pub rest: &'a [u8],
}

impl<'a> Reader<'a> {
    pub fn number(&mut self) -> Result<u32, NotFlat>
        ensures ok { IfOk result (λ number.
            IsRead IsNumber flat_number self.old.rest.now number self.new.rest.now) }
        ensures malformed { OnErr result (BeginsWithNone IsNumber flat_number self.old.rest.now) }
    {
        let [a, b, c, d, rest @ ..] = self.rest else {
            return Err(NotFlat);
        };
        self.rest = rest;
        Ok(u32::from_le_bytes([*a, *b, *c, *d]))
    }

    /// A number that is 0 or 1.
    pub fn truth(&mut self) -> Result<bool, NotFlat>
        ensures ok { IfOk result (λ truth.
            IsRead IsAnyTruth flat_truth self.old.rest.now truth self.new.rest.now) }
        ensures malformed { OnErr result (BeginsWithNone IsAnyTruth flat_truth self.old.rest.now) }
    {
        match self.number()? {
            0 => Ok(false),
            1 => Ok(true),
            _ => Err(NotFlat),
        }
    }

    pub fn text(&mut self) -> Result<&'a str, NotFlat>
        ensures ok { IfOk result (λ text.
            IsRead IsText flat_text self.old.rest.now text.now self.new.rest.now) }
        ensures malformed { OnErr result (BeginsWithNone IsText flat_text self.old.rest.now) }
    {
        let length = self.number()? as usize;
        if self.rest.len() < length {
            return Err(NotFlat);
        }
        let (front, rest) = self.rest.split_at(length);
        self.rest = rest;
        match std::str::from_utf8(front) {
            Ok(text) => Ok(text),
            Err(_) => Err(NotFlat),
        }
    }
}
