//! `search` in an index in pieces: it reads the head, and only the pieces that it needs.

use crate::search::{Answer, Form, answer_of, check_fields, not_searched, refused, unread_file};
use elasticlunr_diagnostics::message::{InputError, unplaced};
use elasticlunr_hits::asked::Asked;
use elasticlunr_hits::hits::hits_of;
use elasticlunr_piece_search::{HeadFault, PieceFault, PieceHead, PieceIndex, empty_text};
use elasticlunr_publish::names::is_folder_name;
use elasticlunr_search::Hit;
use elasticlunr_search::answer::Refusal;
use elasticlunr_search::named::read_named;
use std::alloc::{AllocError, AllocFailed, Global};
use std::{fs, str};

/// Why there is no answer.
#[derive(Drop)]
pub(crate) enum Stop {
    /// This file isn't used.
    File(String, InputError),
    Memory,
}

impl From<AllocError> for Stop {
    fn from(_refused: AllocError) -> Stop {
        Stop::Memory
    }
}

impl<T: Drop> From<AllocFailed<T>> for Stop {
    fn from(_refused: AllocFailed<T>) -> Stop {
        Stop::Memory
    }
}

/// What a piece has.
#[derive(Clone, Copy)]
enum Kind {
    Tokens,
    Texts,
}

/// The files of an index in pieces.
#[derive(Clone, Copy)]
struct Site<'r> {
    rt: &'r HostRuntime,
    folder: &'r str,
    /// The file of the head.
    file: &'r str,
}

/// Whether the file of an index is a folder.
pub(crate) fn is_folder(rt: &HostRuntime, file: &str) -> bool {
    match fs::metadata(rt, file) {
        Ok(about) => file != "-" && about.is_dir(),
        Err(_) => false,
    }
}

/// What is found in the index whose head and pieces are in a folder.
pub(crate) fn answer_in_pieces(
    rt: &HostRuntime,
    folder: &str,
    asked: &Asked<'_>,
    form: Form,
) -> Result<Answer, Stop> {
    let alloc = rt.alloc();
    let file = format!(in alloc; "{folder}/search.json")?;
    let site = Site {
        rt,
        folder,
        file: file.as_str(),
    };
    let head = at_head(&site, head_in(&site))?;
    let tokens = at_head(&site, tokens_of(alloc, &head, asked))?;
    let mut index = PieceIndex::new(alloc, &head)?;
    for number in head.pieces_for(alloc, &tokens, asked.expand)? {
        add_piece(&site, &head, &mut index, Kind::Tokens, number)?;
    }
    let text = at_head(&site, printed(alloc, index.text()))?;
    if !form.has_texts() {
        return at_head(&site, answer_in_text(alloc, text.as_str(), asked, form));
    }
    let hits = at_head(&site, hits_in(alloc, text.as_str(), asked))?;
    add_texts(&site, &head, &mut index, &hits)?;
    let text = at_head(&site, printed(alloc, index.text()))?;
    at_head(&site, answer_in_text(alloc, text.as_str(), asked, form))
}

/// What is had of a head, or why the head isn't used.
fn at_head<T: Drop>(site: &Site<'_>, had: Result<T, InputError>) -> Result<T, Stop> {
    match had {
        Ok(value) => Ok(value),
        Err(trouble) => {
            let file = String::from_str(site.rt.alloc(), site.file)?;
            Err(Stop::File(file, trouble))
        }
    }
}

/// The text of an index of pieces. It has one where the fields of its head differ, as those of a
/// head do that was read.
fn printed(alloc: Global, text: Result<String, PieceFault>) -> Result<String, InputError> {
    match text {
        Ok(text) => Ok(text),
        Err(PieceFault::Memory) => Err(InputError::Memory),
        Err(_) => Err(wrong_member(alloc, "fields")?),
    }
}

/// What is found in the text of an index.
fn answer_in_text(
    alloc: Global,
    text: &str,
    asked: &Asked<'_>,
    form: Form,
) -> Result<Answer, InputError> {
    match read_named(alloc, text) {
        Ok(searcher) => answer_of(alloc, &searcher, asked, form),
        Err(refusal) => Err(not_searched(alloc, refusal)?),
    }
}

/// The hits in the text of an index.
fn hits_in(alloc: Global, text: &str, asked: &Asked<'_>) -> Result<Vec<Hit>, InputError> {
    let searcher = match read_named(alloc, text) {
        Ok(searcher) => searcher,
        Err(refusal) => return Err(not_searched(alloc, refusal)?),
    };
    match hits_of(alloc, &searcher, asked) {
        Ok(hits) => Ok(hits),
        Err(e) => Err(not_searched(alloc, Refusal::from(e))?),
    }
}

/// The head of a site.
fn head_in(site: &Site<'_>) -> Result<PieceHead, InputError> {
    let alloc = site.rt.alloc();
    let bytes = fs::read(site.rt, site.file)?;
    let Ok(text) = str::from_utf8(&bytes) else {
        return Err(unread_file(alloc, &bytes)?);
    };
    match PieceHead::read(alloc, text) {
        Ok(head) if is_folder_name(head.folder.as_str()) => Ok(head),
        Ok(_) => Err(wrong_member(alloc, "folder")?),
        Err(HeadFault::NotRead) => Err(unread_file(alloc, &bytes)?),
        Err(HeadFault::Older) => Err(refused(
            alloc,
            "the head of an older version, which doesn't say how many bytes its pieces have; build it again",
        )?),
        Err(HeadFault::Member(name)) => Err(wrong_member(alloc, name)?),
        Err(HeadFault::Memory) => Err(InputError::Memory),
    }
}

/// That a head lacks a member, or has another one than a head has.
fn wrong_member(alloc: Global, name: &str) -> Result<InputError, AllocError> {
    let said = format!(in alloc;
        "not the head of an index in pieces: its \"{name}\" is missing or wrong"
    )?;
    Ok(InputError::Refused(unplaced(said)))
}

/// The tokens of a query, where the index has the fields that are asked for.
fn tokens_of(
    alloc: Global,
    head: &PieceHead,
    asked: &Asked<'_>,
) -> Result<Vec<String>, InputError> {
    let text = printed(alloc, empty_text(alloc, head))?;
    let searcher = match read_named(alloc, text.as_str()) {
        Ok(searcher) => searcher,
        Err(refusal) => return Err(not_searched(alloc, refusal)?),
    };
    check_fields(alloc, searcher.fields(), asked)?;
    match searcher.query_tokens(asked.query) {
        Ok(tokens) => Ok(tokens),
        Err(e) => Err(not_searched(alloc, Refusal::from(e))?),
    }
}

/// Reads the pieces with the texts of hits, and adds them to the index.
fn add_texts(
    site: &Site<'_>,
    head: &PieceHead,
    index: &mut PieceIndex<'_>,
    hits: &[Hit],
) -> Result<(), Stop> {
    let alloc = site.rt.alloc();
    let mut references = Vec::with_capacity(alloc, hits.len())?;
    for hit in hits {
        references.push(&hit.reference)?;
    }
    for number in head.pieces_with_texts(alloc, &references)? {
        add_piece(site, head, index, Kind::Texts, number)?;
    }
    Ok(())
}

/// Reads a piece, and adds it to the index.
fn add_piece(
    site: &Site<'_>,
    head: &PieceHead,
    index: &mut PieceIndex<'_>,
    kind: Kind,
    number: usize,
) -> Result<(), Stop> {
    let alloc = site.rt.alloc();
    let (folder, pieces) = (site.folder, head.folder.as_str());
    let letter = match kind {
        Kind::Tokens => 't',
        Kind::Texts => 'd',
    };
    let file = format!(in alloc; "{folder}/{pieces}/{letter}{number}.json")?;
    let bytes = match fs::read(site.rt, file.as_str()) {
        Ok(bytes) => bytes,
        Err(e) => return Err(Stop::File(file, InputError::Device(e))),
    };
    match added(index, kind, number, &bytes) {
        Ok(()) => Ok(()),
        Err(fault) => Err(Stop::File(file, wrong_piece(alloc, fault, &bytes)?)),
    }
}

/// Adds a piece with these bytes.
fn added(
    index: &mut PieceIndex<'_>,
    kind: Kind,
    number: usize,
    bytes: &[u8],
) -> Result<(), PieceFault> {
    let Ok(text) = str::from_utf8(bytes) else {
        return Err(PieceFault::NotRead);
    };
    match kind {
        Kind::Tokens => index.add_tokens(number, text),
        Kind::Texts => index.add_texts(number, text),
    }
}

/// Why a piece isn't used.
fn wrong_piece(alloc: Global, fault: PieceFault, bytes: &[u8]) -> Result<InputError, AllocError> {
    match fault {
        PieceFault::Size(size) => {
            let found = bytes.len();
            let said = format!(in alloc;
                "not the piece that search.json names: expected {size} bytes, found {found}"
            )?;
            Ok(InputError::Refused(unplaced(said)))
        }
        PieceFault::NotRead => unread_file(alloc, bytes),
        PieceFault::Other => refused(
            alloc,
            "not the piece that search.json names: it has other entries",
        ),
        PieceFault::Memory => Ok(InputError::Memory),
    }
}
