//! Answers and their statuses.
ghost use Rattle.std.specs.Prelude.{◌≡◌, ◌⊎◌, IfErr, IfOk, length, string_bytes, string_len};
ghost use Rattle.std.specs.Prelude.{vec_len};
ghost use Rattle.elasticlunr_c_calls.specs.Calls.{HasIndex, HasStatus, IsAnswered, IsAnsweredInto};
ghost use Rattle.elasticlunr_c_calls.specs.Calls.{HasFaultStatus, HasHits, HasPieces, IsPut};
ghost use Rattle.elasticlunr_c_calls.specs.Calls.{HasPiecesStatus};
ghost use Rattle.elasticlunr_c_calls.specs.Indexes.{IsMalformed};
ghost use Rattle.elasticlunr_c_calls.specs.Pieces.{IsNoCutting};
ghost use Rattle.elasticlunr_c_calls.specs.Searches.{IsNoSearch};
ghost use Rattle.elasticlunr_job.specs.Answer.{IsAnswer};

use crate::documents::index_documents;
use crate::pieces::{PiecesOutcome, index_pieces};
use crate::search::{SearchOutcome, search_index};
use elasticlunr_flat::FlatError;
use elasticlunr_job::answer::answer;
use elasticlunr_job::outcome::Outcome;
use std::alloc::{AllocError, Global};

const DONE: u32 = 0;

const MEMORY: u32 = 1;

const REFUSED: u32 = 2;

const MALFORMED: u32 = 3;

/// Writes the answer to a job to the beginning of `out`, and returns its length. If `out` is
/// shorter, nothing is written. The status is 0 for the text of an index, 2 for the line of a
/// refusal, and 1 where memory ran out: then nothing is written, and the length is 0.
pub fn answer_into(alloc: Global, job: &[u8], out: &mut [u8], status: &mut u32) -> usize
    ensures answered { IsAnsweredInto job.now out.old out.new status.new result }
{
    match answer_to(alloc, job) {
        Ok((outcome, line)) => {
            *status = status_of(outcome);
            put(line.as_bytes(), out)
        }
        Err(_) => {
            *status = MEMORY;
            0
        }
    }
}

/// The status of the answer to a job, and the answer. Where memory ran out, there is the status
/// alone.
pub fn answer_text(alloc: Global, job: &[u8]) -> Result<(u32, String), u32>
    ensures ok { IfOk result (λ a. IsAnswered job.now a.0 (string_bytes a.1)) }
    ensures err { IfErr result (λ status. status ≡ 1) }
{
    match answer_to(alloc, job) {
        Ok((outcome, line)) => Ok((status_of(outcome), line)),
        Err(_) => Err(MEMORY),
    }
}

/// The same for documents in the flat form. Where they are not in this form, there is the status 3
/// alone.
pub fn index_answer(alloc: Global, input: &[u8]) -> Result<(u32, String), u32>
    ensures ok { IfOk result (λ a. HasIndex input.now a.0 (string_bytes a.1)) }
    ensures err { IfErr result (λ status. (status ≡ 1)
        ⊎ ((status ≡ 3) × IsMalformed input.now)) }
{
    match index_documents(alloc, input) {
        Ok((outcome, text)) => Ok((status_of(outcome), text)),
        Err(fault) => Err(status_of_fault(fault)),
    }
}

/// The same for documents whose index is cut into pieces: the flat form of its head and its pieces.
pub fn pieces_answer(alloc: Global, input: &[u8]) -> Result<(u32, Vec<u8>), u32>
    ensures ok { IfOk result (λ a. HasPieces input.now a.0 a.1.items) }
    ensures err { IfErr result (λ status. (status ≡ 1)
        ⊎ ((status ≡ 3) × IsNoCutting input.now)) }
{
    match index_pieces(alloc, input) {
        Ok((outcome, answer)) => Ok((status_of_pieces(outcome), answer)),
        Err(fault) => Err(status_of_fault(fault)),
    }
}

/// The same for a search in the flat form: a line of JSON for each hit in the text of an index.
/// Where the search is not in this form, there is the status 3 alone.
pub fn search_answer(alloc: Global, index: &[u8], search: &[u8]) -> Result<(u32, String), u32>
    ensures ok { IfOk result (λ a. HasHits index.now search.now a.0 (string_bytes a.1)) }
    ensures err { IfErr result (λ status. (status ≡ 1)
        ⊎ ((status ≡ 3) × IsNoSearch search.now)) }
{
    match search_index(alloc, index, search) {
        Ok((SearchOutcome::Found, lines)) => Ok((DONE, lines)),
        Ok((SearchOutcome::Refused(_), line)) => Ok((REFUSED, line)),
        Err(fault) => Err(status_of_fault(fault)),
    }
}

/// The answer to a job, which is copied.
fn answer_to(alloc: Global, job: &[u8]) -> Result<(Outcome, String), AllocError>
    ensures { IfOk result (λ a. IsAnswer job.now a.0 (string_bytes a.1)) }
{
    let bytes = Vec::from_slice(alloc, job)?;
    answer(alloc, bytes)
}

/// The status of an outcome.
fn status_of(outcome: Outcome) -> u32
    ensures { HasStatus outcome result }
{
    match outcome {
        Outcome::Printed => DONE,
        Outcome::Refused(_) => REFUSED,
    }
}

/// The status of an outcome of pieces.
fn status_of_pieces(outcome: PiecesOutcome) -> u32
    ensures { HasPiecesStatus outcome result }
{
    match outcome {
        PiecesOutcome::Made => DONE,
        PiecesOutcome::Refused(_) | PiecesOutcome::TooLarge => REFUSED,
    }
}

/// The status of an input that is not read.
fn status_of_fault(fault: FlatError) -> u32
    ensures { HasFaultStatus fault result }
{
    match fault {
        FlatError::Malformed => MALFORMED,
        FlatError::Memory => MEMORY,
    }
}

/// Writes a line to the beginning of these bytes if there is room, and returns its length.
fn put(line: &[u8], out: &mut [u8]) -> usize
    ensures length { result ≡ length line.now }
    ensures put { IsPut line.now out.old out.new }
{
    let length = line.len();
    if length <= out.len() {
        out[..length].copy_from_slice(line);
    }
    length
}

/// Puts an answer into a block of its own, for the caller, and says how long the block is.
pub fn hand_out(answer: String, text: &mut *mut u8, length: &mut usize)
    ensures { length.new ≡ string_len answer }
{
    hand_out_bytes(answer.into_bytes(), text, length);
}

/// The same for an answer that is no text.
pub fn hand_out_bytes(answer: Vec<u8>, text: &mut *mut u8, length: &mut usize)
    ensures { length.new ≡ vec_len answer }
{
    let mut bytes = answer;
    *length = bytes.len();
    *text = bytes.as_mut_ptr();
    bytes.leak();
}
