//! The JSON text of an inverted index, with no JSON value built.
ghost use Rattle.std.specs.Prelude.{◌≡◌, map, [], ◌∷◌, ◌++◌, OnOk, encode_utf8, decimal, codes};
ghost use Rattle.json.specs.Token.{key, number, begin_object, end_object};
ghost use Rattle.json.specs.Tree.{json_tokens};
ghost use Rattle.serde_json.specs.Data.{Data};
ghost use Rattle.serde_json.specs.Written.{outline};
ghost use Rattle.std.specs.FinMap.{empty, len};
ghost use Rattle.elasticlunr_trie_nodes.specs.Table.{IsTable};
ghost use Rattle.elasticlunr_trie_nodes.specs.Names.{Names, AreNames, AreNumbered, AreThere};
ghost use Rattle.elasticlunr_trie_nodes.specs.Names.{under_names};
ghost use Rattle.elasticlunr_trie_nodes.specs.Nodes.{AreAllNumbered, postings_at};
ghost use Rattle.elasticlunr_trie_nodes.specs.Trie.{IsTrie, named, table_of, entries_at};
ghost use Rattle.elasticlunr_trie.specs.Tree.{IsTrieValue, frequencies};
ghost use Rattle.elasticlunr_trie.specs.Printed.{IsOrder, place_members, node_tree};
ghost use Rattle.elasticlunr_trie.specs.Printed.{postings_tokens, left_members, node_members};
ghost use Rattle.elasticlunr_trie.specs.Printed.{stack_tokens, Advances, HasTrees};
ghost use Rattle.elasticlunr_json.specs.Tokens.{tokens_of};

use super::InvertedIndex;
use elasticlunr_json::{Token, Tokens};
use elasticlunr_trie_nodes::child::Child;
use elasticlunr_trie_nodes::docs::in_order;
use elasticlunr_trie_nodes::names::NameTexts;
use elasticlunr_trie_nodes::nodes::{Node, Place, children_of, postings_at};
use elasticlunr_trie_nodes::postings::Postings;
use std::alloc::{AllocError, Global};

// What is left to write of an object: children, and before them or among them `df` and `docs` of a
// place.
#[derive(Clone, Copy)]
enum Left<'a> {
    WithPostings(Place, &'a [Child]),
    WithoutPostings(&'a [Child]),
}

// The names of references, and for each the place of its name among the names in order.
#[derive(Clone, Copy)]
struct Order<'a> {
    alloc: Global,
    names: &'a NameTexts,
    ranks: &'a [usize],
}

impl InvertedIndex {
    /// Writes the JSON value of the trie, without making it. Takes 32 bytes of memory a reference
    /// and a copy of its name, and a few a level, besides what is written, and 24 for each posting
    /// of the node that is written. The names are put in order once, and each node's postings by
    /// them.
    pub fn write<W: Tokens>(&self, out: &mut W) -> Result<(), AllocError>
        ensures written { OnOk result ((v : Data) × IsTrieValue self.now v
            × (W.Tokens.written out.new ≡ W.Tokens.written out.old ++ json_tokens (outline v))) }
        ensures table { IsTable self.now }
    {
        let alloc = *self.nodes.allocator();
        let ranks = self.names.ranks(alloc)?;
        let names = NameTexts::of(alloc, &self.names)?;
        let order = Order {
            alloc,
            names: &names,
            ranks: &ranks,
        };
        write_trie(order, &self.root, &self.nodes, out)
    }
}

// Writes the tree of the root under its key.
fn write_trie<W: Tokens>(
    order: Order,
    root: &[Child],
    nodes: &[Node],
    out: &mut W,
) -> Result<(), AllocError>
    requires trie { IsTrie root.now nodes.now }
    requires order { IsOrder order }
    requires numbered { AreAllNumbered order.names.now nodes.now }
    ensures { OnOk result ((v : Data)
        × IsTrieValue (table_of root.now nodes.now order.entry.names.now) v
        × (W.Tokens.written out.new ≡ W.Tokens.written out.old ++ json_tokens (outline v))) }
{
    out.token(Token::BeginObject)?;
    out.token(Token::Key("root"))?;
    out.token(Token::BeginObject)?;
    write_members(order, root, nodes, out)?;
    out.token(Token::EndObject)?;
    Ok(())
}

// Writes the members of the root's tree, and the end of the object.
fn write_members<W: Tokens>(
    order: Order,
    root: &[Child],
    nodes: &[Node],
    out: &mut W,
) -> Result<(), AllocError>
    requires trees { HasTrees order.names.now nodes.now }
    requires order { IsOrder order }
    requires numbered { AreAllNumbered order.names.now nodes.now }
    ensures { OnOk result (W.Tokens.written out.new ≡ W.Tokens.written out.old
        ++ tokens_of (place_members (node_tree order.entry.names.now nodes.now)
        (named order.entry.names.now empty) root.now)) }
{
    let mut stack = Vec::new(order.alloc);
    stack.push(Left::WithPostings(Place::Root, root))?;
    while let Some(left) = stack.pop() {
        write_next(order, nodes, left, &mut stack, out)?;
    }
    Ok(())
}

// Writes the first tokens of the rest of an object, and keeps the rest.
fn write_next<'a, W: Tokens>(
    order: Order,
    nodes: &'a [Node],
    left: Left<'a>,
    stack: &mut Vec<Left<'a>>,
    out: &mut W,
) -> Result<(), AllocError>
    requires trees { HasTrees order.names.now nodes.now }
    requires order { IsOrder order }
    requires numbered { AreAllNumbered order.names.now nodes.now }
    ensures { OnOk result (Advances (W.Tokens.written out.old)
        (tokens_of (left_members order.entry.names.now nodes.now left.entry)
        ++ stack_tokens order.entry.names.now nodes.now stack.old.items) (W.Tokens.written out.new)
        (stack_tokens order.entry.names.now nodes.now stack.new.items)) }
{
    match left {
        Left::WithPostings(place, children) => match children.split_first() {
            Some((child, rest)) if child.character() <= 'd' => {
                stack.push(Left::WithPostings(place, rest))?;
                open_child(nodes, *child, stack, out)?;
                Ok(())
            }
            _ => {
                write_postings(order, nodes, place, out)?;
                stack.push(Left::WithoutPostings(children))?;
                Ok(())
            }
        },
        Left::WithoutPostings(children) => match children.split_first() {
            Some((child, rest)) => {
                stack.push(Left::WithoutPostings(rest))?;
                open_child(nodes, *child, stack, out)?;
                Ok(())
            }
            None => {
                out.token(Token::EndObject)?;
                Ok(())
            }
        },
    }
}

// Writes the key of a child and the beginning of its object, whose members are left.
fn open_child<'a, W: Tokens>(
    nodes: &'a [Node],
    child: Child,
    stack: &mut Vec<Left<'a>>,
    out: &mut W,
) -> Result<(), AllocError>
    ensures written { OnOk result (W.Tokens.written out.new ≡ W.Tokens.written out.old
        ++ key (encode_utf8 child.0) ∷ begin_object ∷ []) }
    ensures left { OnOk result ((names : Names) → stack_tokens names nodes.now stack.new.items
        ≡ tokens_of (node_members names nodes.now child.1) ++ stack_tokens names nodes.now
        stack.old.items) }
{
    write_child_key(child.character(), out)?;
    let k = child.node();
    stack.push(Left::WithPostings(Place::At(k), children_of(nodes, k)))?;
    Ok(())
}

// Writes the key of a child, and the beginning of its object.
fn write_child_key<W: Tokens>(c: char, out: &mut W) -> Result<(), AllocError>
    ensures { OnOk result (W.Tokens.written out.new ≡ W.Tokens.written out.old
        ++ key (encode_utf8 c) ∷ begin_object ∷ []) }
{
    let mut buffer = [0; 4];
    out.token(Token::Key(c.encode_utf8(&mut buffer)))?;
    out.token(Token::BeginObject)?;
    Ok(())
}

// Writes `df` and `docs` of a place.
fn write_postings<W: Tokens>(
    order: Order,
    nodes: &[Node],
    place: Place,
    out: &mut W,
) -> Result<(), AllocError>
    requires order { IsOrder order }
    requires numbered { AreAllNumbered order.names.now nodes.now }
    ensures { OnOk result (W.Tokens.written out.new ≡ W.Tokens.written out.old
        ++ postings_tokens (named order.entry.names.now (entries_at [] nodes.now place))) }
{
    match place {
        Place::Root => write_no_postings(out),
        Place::At(k) => write_at(order, nodes, k, out),
    }
}

// Writes `df` and `docs` of a node.
fn write_at<W: Tokens>(
    order: Order,
    nodes: &[Node],
    k: usize,
    out: &mut W,
) -> Result<(), AllocError>
    requires order { IsOrder order }
    requires numbered { AreAllNumbered order.names.now nodes.now }
    ensures { OnOk result (W.Tokens.written out.new ≡ W.Tokens.written out.old
        ++ postings_tokens (named order.entry.names.now (postings_at nodes.now k))) }
{
    if k >= nodes.len() {
        return write_no_postings(out);
    }
    write_docs(order, postings_at(nodes, k), out)
}

fn write_no_postings<W: Tokens>(out: &mut W) -> Result<(), AllocError>
    ensures { OnOk result ((names : Names) → W.Tokens.written out.new ≡ W.Tokens.written out.old
        ++ postings_tokens (named names empty)) }
{
    out.token(Token::Key("df"))?;
    out.number(0)?;
    out.token(Token::Key("docs"))?;
    out.token(Token::BeginObject)?;
    out.token(Token::EndObject)?;
    Ok(())
}

fn write_docs<W: Tokens>(order: Order, postings: &Postings, out: &mut W) -> Result<(), AllocError>
    requires order { IsOrder order }
    requires numbered { AreNumbered order.names.now postings.now }
    ensures { OnOk result (W.Tokens.written out.new ≡ W.Tokens.written out.old
        ++ postings_tokens (named order.entry.names.now postings.now)) }
{
    if postings.len() == 1 {
        return write_single(order.names, postings, out);
    }
    write_sorted(order, postings, out)
}

// Writes `df` and `docs` of a node with one posting. There is nothing to sort, so no list is made.
fn write_single<W: Tokens>(
    names: &NameTexts,
    postings: &Postings,
    out: &mut W,
) -> Result<(), AllocError>
    requires names { AreNames names.now }
    requires numbered { AreNumbered names.now postings.now }
    requires single { len postings.now ≡ 1 }
    ensures { OnOk result (W.Tokens.written out.new ≡ W.Tokens.written out.old
        ++ postings_tokens (named names.now postings.now)) }
{
    let (number, frequency) = postings.at(0);
    let ranked = [(0, number, frequency)];
    out.token(Token::Key("df"))?;
    out.number(1)?;
    out.token(Token::Key("docs"))?;
    out.token(Token::BeginObject)?;
    write_ranked(names, &ranked, out)?;
    out.token(Token::EndObject)?;
    Ok(())
}

// Writes `df` and `docs` of a node with any number of postings.
fn write_sorted<W: Tokens>(order: Order, postings: &Postings, out: &mut W) -> Result<(), AllocError>
    requires order { IsOrder order }
    requires numbered { AreNumbered order.names.now postings.now }
    ensures { OnOk result (W.Tokens.written out.new ≡ W.Tokens.written out.old
        ++ postings_tokens (named order.entry.names.now postings.now)) }
{
    let ranked = in_order(order.alloc, order.names, order.ranks, postings)?;
    out.token(Token::Key("df"))?;
    out.number(ranked.len() as u64)?;
    out.token(Token::Key("docs"))?;
    out.token(Token::BeginObject)?;
    write_ranked(order.names, &ranked, out)?;
    out.token(Token::EndObject)?;
    Ok(())
}

// Writes postings, each as the rank of its name, the number and the frequency.
fn write_ranked<W: Tokens>(
    names: &NameTexts,
    ranked: &[(usize, usize, u64)],
    out: &mut W,
) -> Result<(), AllocError>
    requires { AreThere names.now ranked.now }
    ensures { OnOk result (W.Tokens.written out.new ++ end_object ∷ [] ≡ W.Tokens.written out.old
        ++ tokens_of (frequencies (under_names names.now (map (λ e. (e.1, e.2)) ranked.now)))) }
{
    for &(_, number, term_freq) in ranked {
        write_posting(names.name(number), term_freq, out)?;
    }
    Ok(())
}

// Writes a reference and its frequency.
fn write_posting<W: Tokens>(doc_ref: &str, term_freq: u64, out: &mut W) -> Result<(), AllocError>
    ensures { OnOk result (W.Tokens.written out.new ≡ W.Tokens.written out.old
        ++ key doc_ref.now ∷ begin_object ∷ key (codes "tf") ∷ number (decimal term_freq) ∷ end_object ∷ []) }
{
    out.token(Token::Key(doc_ref))?;
    out.token(Token::BeginObject)?;
    out.token(Token::Key("tf"))?;
    out.number(term_freq)?;
    out.token(Token::EndObject)?;
    Ok(())
}
