//! A walk over the tokens of a trie's printed text, which makes the trie.
ghost use Rattle.std.specs.Prelude.{◌<◌, OnOk, length};

use crate::error::SearchError;
use crate::field_references::place_after;
use crate::tokens::{next, read_number, take};
use elasticlunr_trie::InvertedIndex;
use json::{Reader, Token};
use std::alloc::Global;

/// How many steps through tries a text may cost for each of its bytes, and how many more.
///
/// Of what this library prints, that refuses no index whose tokens have up to 1,100 bytes, since a
/// posting takes 18 bytes of the text at least, and a text that leads to no posting 22. It refuses
/// one where thousands of documents share a longer token and their texts are not stored: a token of
/// 10,000 letters may have some 2,000 postings.
const STEPS_PER_BYTE: u64 = 64;

const MORE_STEPS: u64 = 1 << 20;

// These come right after the rank of `d`.
const RANK_OF_DF: u32 = 402;

const RANK_OF_DOCS: u32 = 403;

/// The steps through tries that are left: one for each byte of a path, each time a posting is added
/// from the root. A text with long paths and many postings would cost the square of its length.
#[derive(Drop)]
pub(crate) struct Steps {
    left: u64,
}

impl Steps {
    /// The steps for a text.
    pub(crate) fn of_text(text: &str) -> Steps {
        let of_bytes = (text.len() as u64).saturating_mul(STEPS_PER_BYTE);
        Steps {
            left: of_bytes.saturating_add(MORE_STEPS),
        }
    }

    /// Takes the steps of a path, if there are as many.
    fn take(&mut self, path: &str) -> Result<(), SearchError> {
        let Some(left) = self.left.checked_sub(path.len() as u64) else {
            return Err(SearchError::NotRead);
        };
        self.left = left;
        Ok(())
    }
}

/// A trie that is made of its tokens, and the node that is read.
#[derive(Drop)]
pub(crate) struct Walk<'a> {
    trie: InvertedIndex,
    // The references that may have postings, in the order of their bytes. They are numbered so.
    references: Vec<&'a str>,
    steps: Steps,
    // The letters that lead to the node.
    path: String,
    // How much of the path the trie knows, in bytes.
    known: usize,
    // The rank of the key of the node that was read last, and 0 before the first.
    last: u32,
}

impl<'a> Walk<'a> {
    /// An empty trie in which the references have their numbers.
    pub(crate) fn new(
        alloc: Global,
        references: Vec<&'a str>,
        steps: Steps,
    ) -> Result<Self, SearchError> {
        let mut trie = InvertedIndex::new(alloc);
        for reference in &references {
            if trie.add_tokens(*reference, &[]).is_err() {
                return Err(SearchError::Memory);
            }
        }
        Ok(Walk {
            trie,
            references,
            steps,
            path: String::new(alloc),
            known: 0,
            last: 0,
        })
    }

    /// The trie, and the steps that are left.
    pub(crate) fn into_parts(self) -> (InvertedIndex, Steps) {
        let Walk {
            trie,
            references: _references,
            steps,
            path: _path,
            known: _known,
            last: _last,
        } = self;
        (trie, steps)
    }

    /// Reads the trie. Each posting is added under the letters that lead to it, so it costs a step
    /// for each of them. Texts that lead to no posting, as a removal leaves them, are known, too.
    pub(crate) fn read(&mut self, reader: &mut Reader<'_>) -> Result<(), SearchError>
        ensures { OnOk result (length reader.new < length reader.old) }
    {
        take(reader, Token::BeginObject)?;
        take(reader, Token::Key("root"))?;
        take(reader, Token::BeginObject)?;
        'trie: loop {
            match next(reader)? {
                Token::Key(key) => self.read_member(reader, key)?,
                Token::EndObject => {
                    if !self.leave()? {
                        return take(reader, Token::EndObject);
                    }
                }
                _ => return Err(SearchError::NotRead),
            }
        }
    }

    /// A member of the node: its postings, their number, or a child, which is entered. Its key
    /// comes after those before it, so no node is visited twice.
    fn read_member(&mut self, reader: &mut Reader<'_>, key: &str) -> Result<(), SearchError>
        ensures { OnOk result (length reader.new < length reader.old) }
    {
        let rank = rank_of(key).ok_or(SearchError::NotRead)?;
        if rank <= self.last {
            return Err(SearchError::NotRead);
        }
        self.last = rank;
        match key {
            "docs" => self.read_postings(reader),
            "df" => {
                read_number(reader)?;
                Ok(())
            }
            letter => {
                take(reader, Token::BeginObject)?;
                self.path.push_str(letter)?;
                self.last = 0;
                Ok(())
            }
        }
    }

    /// The end of the node. Whether there is one above it.
    fn leave(&mut self) -> Result<bool, SearchError> {
        if self.known < self.path.len() {
            self.learn()?;
        }
        let Some(letter) = self.path.pop() else {
            return Ok(false);
        };
        self.known = self.path.len();
        self.last = rank_of_letter(letter);
        Ok(true)
    }

    /// Makes the path known, with no posting of it.
    fn learn(&mut self) -> Result<(), SearchError> {
        self.add_posting("", 1)?;
        self.trie.remove_token("", self.path.as_str());
        Ok(())
    }

    /// Adds a posting of the path.
    fn add_posting(&mut self, reference: &str, frequency: u64) -> Result<(), SearchError> {
        let token = self.path.as_str();
        self.steps.take(token)?;
        if self.trie.add_token(reference, token, frequency).is_err() {
            return Err(SearchError::Memory);
        }
        self.known = token.len();
        Ok(())
    }

    /// The postings of the path. Each reference comes after the one before it, so its number is
    /// greater, too, and the posting goes to the end.
    fn read_postings(&mut self, reader: &mut Reader<'_>) -> Result<(), SearchError>
        ensures { OnOk result (length reader.new < length reader.old) }
    {
        take(reader, Token::BeginObject)?;
        let mut place = 0;
        'postings: loop {
            match next(reader)? {
                Token::Key(reference) => {
                    place = place_after(&self.references, place, reference).ok_or(
                        SearchError::NotRead,
                    )?;
                    let frequency = read_frequency(reader)?;
                    self.add_posting(reference, frequency)?;
                }
                Token::EndObject => return Ok(()),
                _ => return Err(SearchError::NotRead),
            }
        }
    }
}

/// The rank of a key among those of a node, which stand in the order of their bytes: a letter, or
/// `df` or `docs`, which come right after `d`. `None` of any other key. No rank is 0.
fn rank_of(key: &str) -> Option<u32> {
    match key {
        "df" => Some(RANK_OF_DF),
        "docs" => Some(RANK_OF_DOCS),
        _ => {
            let mut letters = key.chars();
            let letter = letters.next()?;
            match letters.next() {
                None => Some(rank_of_letter(letter)),
                Some(_) => None,
            }
        }
    }
}

/// The rank of a letter.
fn rank_of_letter(letter: char) -> u32 {
    4 * letter as u32 + 1
}

/// The frequency in a posting.
fn read_frequency(reader: &mut Reader<'_>) -> Result<u64, SearchError>
    ensures { OnOk result (length reader.new < length reader.old) }
{
    take(reader, Token::BeginObject)?;
    take(reader, Token::Key("tf"))?;
    let frequency = read_number(reader)?;
    take(reader, Token::EndObject)?;
    Ok(frequency)
}
