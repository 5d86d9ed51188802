//! The library for C, and for languages that call C: bytes in, bytes out. `elasticlunr.h` declares
//! these functions, and says what a caller has to ensure.
#![tactic(auto)]

ghost use Rattle.elasticlunr_c_calls.specs.Calls.{IsAnsweredBy, IsAnsweredInto, IsIndexedBy};
ghost use Rattle.elasticlunr_c_calls.specs.Calls.{IsCutBy, IsSearchedBy};

use elasticlunr_c_calls::{
    answer_into, answer_text, hand_out, hand_out_bytes, index_answer, pieces_answer, search_answer,
};
use std::alloc::Global;

/// Writes the answer to a job to the beginning of `out`, and returns its length. If `out` is
/// shorter, nothing is written. The status is 0 for the text of an index, 2 for the line of a
/// refusal, and 1 where memory ran out: then nothing is written, and the length is 0.
#[unsafe(no_mangle)]
pub extern "C" fn elasticlunr_answer_into(
    alloc: Global,
    job: &[u8],
    out: &mut [u8],
    status: &mut u32,
) -> usize
    ensures answered { IsAnsweredInto job.now out.old out.new status.new result }
{
    answer_into(alloc, job, out, status)
}

/// The same answer in a block of `malloc`, at `text`, with its length. Where memory ran out, both
/// stay as they were.
#[unsafe(no_mangle)]
pub extern "C" fn elasticlunr_answer(
    alloc: Global,
    job: &[u8],
    text: &mut *mut u8,
    length: &mut usize,
) -> u32
    ensures answered { IsAnsweredBy job.now length.old length.new result }
{
    match answer_text(alloc, job) {
        Ok((status, answer)) => {
            hand_out(answer, text, length);
            status
        }
        Err(status) => status,
    }
}

/// The index of documents in the flat form, whose tokens may come with them, in a block of
/// `malloc`. The status is 0 for the text of an index, 2 for the line of a refusal, 1 where memory
/// ran out, and 3 where the bytes are not in the flat form. At 1 and 3 both stay as they were.
#[unsafe(no_mangle)]
pub extern "C" fn elasticlunr_index_documents(
    alloc: Global,
    input: &[u8],
    text: &mut *mut u8,
    length: &mut usize,
) -> u32
    ensures indexed { IsIndexedBy input.now length.old length.new result }
{
    match index_answer(alloc, input) {
        Ok((status, answer)) => {
            hand_out(answer, text, length);
            status
        }
        Err(status) => status,
    }
}

/// The head and the pieces of the index of documents in the flat form, in a block of `malloc`. The
/// status is 0 for their flat form, 2 for the line of a refusal, 1 where memory ran out, and 3
/// where the bytes are not in the flat form. At 1 and 3 both stay as they were.
#[unsafe(no_mangle)]
pub extern "C" fn elasticlunr_index_pieces(
    alloc: Global,
    input: &[u8],
    text: &mut *mut u8,
    length: &mut usize,
) -> u32
    ensures cut { IsCutBy input.now length.old length.new result }
{
    match pieces_answer(alloc, input) {
        Ok((status, answer)) => {
            hand_out_bytes(answer, text, length);
            status
        }
        Err(status) => status,
    }
}

/// What a search in the flat form finds in the text of an index: a line of JSON for each hit, the
/// best first, in a block of `malloc`. The status is 0 for these lines, of which there may be none,
/// 2 for the line of a refusal, 1 where memory ran out, and 3 where the search is not in the flat
/// form. At 1 and 3 both stay as they were.
#[unsafe(no_mangle)]
pub extern "C" fn elasticlunr_search(
    alloc: Global,
    index: &[u8],
    search: &[u8],
    text: &mut *mut u8,
    length: &mut usize,
) -> u32
    ensures searched { IsSearchedBy index.now search.now length.old length.new result }
{
    match search_answer(alloc, index, search) {
        Ok((status, answer)) => {
            hand_out(answer, text, length);
            status
        }
        Err(status) => status,
    }
}
