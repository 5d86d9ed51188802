//! Where tokens lead that `add_tokens` was given before. To look that up takes one hash, and waits
//! for memory once; to walk there takes a step for each character, and waits at each. No result
//! needs it, so where memory for it is refused, it isn't kept.
ghost use Rattle.std.specs.Prelude.{◌≡◌, ◌≢◌, ◌<◌, ℕ, Some, IfOk, IfSome, All, length, take};
ghost use Rattle.std.specs.Str.{chars};
ghost use Rattle.elasticlunr_trie_nodes.specs.Starts.{IsStart, told};
ghost use Rattle.elasticlunr_trie_nodes.specs.Trie.{Step, step_of, walk};
ghost use Rattle.elasticlunr_trie_nodes.specs.declared.nodes.Place.TheVariants.{Root, At};
ghost use Rattle.elasticlunr_trie.specs.TokenCache.{AreEnds, IsEnd};

use elasticlunr_trie_nodes::child::Child;
use elasticlunr_trie_nodes::nodes::{Node, Place};
use elasticlunr_trie_nodes::start::WalkedToken;
use std::alloc::{AllocError, Global};

// How many bytes of a token a slot has room for. A longer token is walked.
const ROOM: usize = 27;

// In how many slots a token may stand: in the one of its hash, and in those that follow.
const REACH: usize = 8;

// How many slots there are at first.
const FIRST: usize = 64;

// A token and the number of the node to which it leads. The empty token marks a free slot.
#[derive(Clone, Copy)]
pub struct CachedToken {
    node: u32,
    length: u8,
    text: [u8; ROOM],
}

impl CachedToken {
    // What a free slot has.
    fn free() -> Self
        ensures { result.length ≡ 0 }
    {
        CachedToken {
            node: 0,
            length: 0,
            text: [0; ROOM],
        }
    }

    // A token with its node, if it has room.
    fn new(token: &str, node: u32) -> Option<Self>
        ensures { IfSome result (λ end. (take end.length end.text ≡ token.now) × (end.node ≡ node)) }
    {
        if token.len() > ROOM {
            return None;
        }
        let mut text = [0; ROOM];
        text[..token.len()].copy_from_slice(token.as_bytes());
        Some(CachedToken {
            node,
            length: token.len() as u8,
            text,
        })
    }

    // The bytes of the token.
    fn token(&self) -> &[u8]
        ensures { result.now ≡ take self.now.length self.now.text }
    {
        self.text.get(..self.length as usize).unwrap_or(&self.text)
    }
}

// Tokens with their nodes, each in one of the slots that its hash names, and in no second one; a
// token for which all of them are taken isn't remembered. So a look-up never visits more, whatever
// the tokens are.
#[derive(Drop)]
pub struct TokenCache {
    slots: Vec<CachedToken>,
    taken: usize,
}

impl TokenCache {
    // Nothing is remembered, and no memory is taken.
    pub(super) fn new(alloc: Global) -> Self
        ensures { (step : Step) → AreEnds step result }
    {
        TokenCache {
            slots: Vec::new(alloc),
            taken: 0,
        }
    }

    // The node to which a token leads, if that is remembered.
    #[inline(always)]
    fn get(&self, token: &str) -> Option<u32>
        ensures { IfSome result (λ k. (step : Step) → AreEnds step self.now
            → walk step Root (chars token.now) ≡ Some (At k)) }
    {
        if self.slots.is_empty() || token.is_empty() || token.len() > ROOM {
            return None;
        }
        let hash = hash_of(token.as_bytes());
        for further in 0..REACH {
            let end = self.slots.get(slot(&self.slots, hash, further))?;
            if end.length == 0 {
                return None;
            }
            if end.token() == token.as_bytes() {
                return Some(end.node);
            }
        }
        None
    }

    // Remembers where a token leads, unless that is remembered already, if it has room and a slot
    // is free for it. Where the table can't be made larger, nothing has changed.
    fn put(&mut self, alloc: Global, token: &str, node: u32)
        ensures { (step : Step) → AreEnds step self.old → walk step Root (chars token.now)
            ≡ Some (At node) → AreEnds step self.new }
    {
        let Some(end) = CachedToken::new(token, node) else {
            return;
        };
        if self.get(token).is_some() {
            return;
        }
        if self.taken >= self.slots.len() / 4 * 3 {
            let Ok(more) = twice_as_many(alloc, &self.slots) else {
                return;
            };
            self.slots = more;
        }
        if put_end(&mut self.slots, end) {
            self.taken = self.taken.saturating_add(1);
        }
    }
}

// The hash of a token. It multiplies by an odd number for each eight bytes. The upper bytes of a
// product depend on all of its bits, so they are swapped with the low ones, which name the slot.
fn hash_of(token: &[u8]) -> u64 {
    let (words, rest) = token.as_chunks::<8>();
    let mut hash = token.len() as u64;
    for word in words {
        hash = mixed(hash, u64::from_le_bytes(*word));
    }
    let mut last = 0;
    for byte in rest {
        last = (last << 8) | u64::from(*byte);
    }
    mixed(hash, last).swap_bytes()
}

// A hash that has taken eight bytes more.
fn mixed(hash: u64, word: u64) -> u64 {
    let product = (hash ^ word).wrapping_mul(0x9e37_79b9_7f4a_7c15);
    product ^ (product >> 32)
}

// The number of a slot: so many further than that of the hash. The number of slots is a power of 2.
fn slot(slots: &[CachedToken], hash: u64, further: usize) -> usize {
    (hash as usize).wrapping_add(further) & slots.len().wrapping_sub(1)
}

// The first of the slots of a hash that is free, if one is.
fn free_slot(slots: &[CachedToken], hash: u64) -> Option<usize>
    ensures { IfSome result (λ place. place < length slots.now) }
{
    for further in 0..REACH {
        let place = slot(slots, hash, further);
        if slots.get(place)?.length == 0 {
            return Some(place);
        }
    }
    None
}

// Puts a token in one of its slots; was one free?
fn put_end(slots: &mut [CachedToken], end: CachedToken) -> bool
    ensures { (step : Step) → All (IsEnd step) slots.old → IsEnd step end
        → All (IsEnd step) slots.new }
{
    let Some(place) = free_slot(slots, hash_of(end.token())) else {
        return false;
    };
    slots[place] = end;
    true
}

// The same tokens in a table of twice as many slots.
fn twice_as_many(alloc: Global, slots: &[CachedToken]) -> Result<Vec<CachedToken>, AllocError>
    ensures { IfOk result (λ more. (step : Step) → All (IsEnd step) slots.now
        → All (IsEnd step) more.items) }
{
    let count = slots.len().saturating_mul(2).max(FIRST);
    let mut more = Vec::from_elem(alloc, CachedToken::free(), count)?;
    for end in slots {
        if end.length != 0 {
            put_end(&mut more, *end);
        }
    }
    Ok(more)
}

// A token at its end, where that is remembered, and else at the root.
pub(super) fn begin<'a>(
    root: &[Child],
    nodes: &[Node],
    ends: &TokenCache,
    token: &'a str,
    frequency: u64,
) -> WalkedToken<'a>
    requires { AreEnds (step_of root.now nodes.now) ends.now }
    ensures start { IsStart (step_of root.now nodes.now) result }
    ensures told { told result ≡ (chars token.now, frequency) }
{
    match ends.get(token) {
        Some(k) => WalkedToken {
            token,
            frequency,
            place: Place::At(k as usize),
            rest: "",
        },
        None => WalkedToken::new(token, frequency),
    }
}

// Remembers where a token leads, if it is known and the number of the node has 32 bits. Where
// memory is refused, the token isn't remembered.
pub(super) fn remember(
    alloc: Global,
    root: &[Child],
    nodes: &[Node],
    ends: &mut TokenCache,
    start: WalkedToken<'_>,
)
    requires ends { AreEnds (step_of root.now nodes.now) ends.old }
    requires start { IsStart (step_of root.now nodes.now) start }
    ensures ends { AreEnds (step_of root.now nodes.now) ends.new }
{
    if !start.rest.is_empty() {
        return;
    }
    let Place::At(k) = start.place else {
        return;
    };
    let Ok(node) = u32::try_from(k) else {
        return;
    };
    ends.put(alloc, start.token, node);
}
