//! A child of a node or of the root.
ghost use Rattle.std.specs.Prelude.{◌≡◌, ◌↔◌, ◌<◌, ◌≤◌, ◌^◌, IsTrue, IfOk, IfErr};

use std::alloc::AllocError;
use std::fmt;
use std::marker::Model;

// How many numbers of nodes there are: a character takes 21 bits of 64, which leaves 43.
const NODES: u64 = 1 << 43;

/// A character, and the number of the node under it. It takes 8 bytes.
#[derive(Clone, Copy)]
pub struct Child {
    // the character in the high bits, so children are in the order of their characters
    bits: u64,
}

impl Model for Child {
    ghost use Rattle.std.specs.Prelude.{ℕ, ◌*◌, ◌+◌, ◌/◌, ◌%◌, ◌^◌};
    ghost use Rattle.std.specs.Coded.{coded_ℕ, coded×};
    ghost use Rattle.std.specs.Char.{IsScalar};
    ghost use Rattle.std.proofs.Common.{◌≡◌, arith};

    ghost Value = { ℕ × ℕ };

    ghost coded = { coded× coded_ℕ coded_ℕ };

    ghost view = { λ c. (c.bits / 2 ^ 43, c.bits % 2 ^ 43) };

    ghost invariant = { λ c. IsScalar (c.bits / 2 ^ 43) };

    ghost inverse = { λ v. record { bits = v.0 * 2 ^ 43 + v.1 } };

    ghost inverse_ok = { λ c _ i.
        let whole : c.bits / 2 ^ 43 * 2 ^ 43 + c.bits % 2 ^ 43 ≡ c.bits = Prim.omega arith in record { bits = whole i } };
}

impl Child {
    /// A child. Where the number has more than 43 bits, it fails as where memory is refused.
    pub fn new(character: char, node: usize) -> Result<Self, AllocError>
        ensures ok { IfOk result (λ child. child ≡ (character, node)) }
        ensures err { IfErr result (λ _. 2 ^ 43 ≤ node) }
    {
        let number = node as u64;
        if number >= NODES {
            return Err(AllocError);
        }
        Ok(Child {
            bits: character as u64 * NODES + number,
        })
    }

    /// The character.
    pub fn character(&self) -> char
        ensures { result ≡ self.now.0 }
    {
        // SAFETY: the high bits are those of a character.
        unsafe { char::from_u32_unchecked((self.bits / NODES) as u32) }
    }

    /// The number of the node.
    pub fn node(&self) -> usize
        ensures { result ≡ self.now.1 }
    {
        (self.bits % NODES) as usize
    }

    /// Is its character below this one? One comparison, with nothing taken apart.
    pub fn is_before(&self, character: char) -> bool
        ensures { IsTrue result ↔ (self.now.0 < character) }
    {
        self.bits < character as u64 * NODES
    }
}

impl fmt::Debug for Child {
    fn fmt<W: fmt::Write>(&self, f: &mut fmt::Formatter<W>) -> fmt::Result {
        (self.character(), self.node()).fmt(f)
    }
}
