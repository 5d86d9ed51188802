//! What is indexed, and what is searched for, read of bytes.

ghost use Rattle.std.specs.Prelude.{◌≡◌, ◌≢◌, IfOk, IfErr};
ghost use Rattle.elasticlunr_flat.specs.Flat.{flat_cutting, flat_input, flat_search};
ghost use Rattle.elasticlunr_flat.specs.Flat.{IsCutting, IsInput, IsSearch};
ghost use Rattle.elasticlunr_flat.specs.Reading.{IsMemoryOr, IsOfNone};
ghost use Rattle.elasticlunr_flat.specs.Told.{cutting_told, input_told, search_told};

use crate::fault::FlatError;
use crate::form::{Cutting, Input, Search};
use crate::items::Item;
use crate::reader::Reader;
use std::alloc::Global;

/// The input that all of the bytes are. Memory is requested for items as they are read, never for
/// the number that stands before them.
pub fn read_input<'a>(alloc: Global, bytes: &'a [u8]) -> Result<Input<'a>, FlatError>
    ensures fits { IfOk result (λ input. IsInput (input_told input)) }
    ensures ok { IfOk result (λ input. bytes.now ≡ flat_input (input_told input)) }
    // Only the bytes of no input are malformed.
    ensures malformed { IfErr result (IsMemoryOr (IsOfNone IsInput flat_input bytes.now)) }
{
    read_whole(alloc, bytes)
}

/// The documents that all of the bytes are, with how their index is cut into pieces.
pub fn read_cutting<'a>(alloc: Global, bytes: &'a [u8]) -> Result<Cutting<'a>, FlatError>
    ensures fits { IfOk result (λ cutting. IsCutting (cutting_told cutting)) }
    ensures ok { IfOk result (λ cutting. bytes.now ≡ flat_cutting (cutting_told cutting)) }
    ensures malformed { IfErr result (IsMemoryOr (IsOfNone IsCutting flat_cutting bytes.now)) }
{
    let (title, (size, input)) = read_whole(alloc, bytes)?;
    Ok(Cutting { title, size, input })
}

/// The search that all of the bytes are.
pub fn read_search<'a>(alloc: Global, bytes: &'a [u8]) -> Result<Search<'a>, FlatError>
    ensures fits { IfOk result (λ search. IsSearch (search_told search)) }
    ensures ok { IfOk result (λ search. bytes.now ≡ flat_search (search_told search)) }
    ensures malformed { IfErr result (IsMemoryOr (IsOfNone IsSearch flat_search bytes.now)) }
{
    read_whole(alloc, bytes)
}

/// The item that all of the bytes are.
fn read_whole<'a, T: Item<'a>>(alloc: Global, bytes: &'a [u8]) -> Result<T, FlatError>
    ensures fits { IfOk result (λ item. T.Fits (T.told item)) }
    ensures ok { IfOk result (λ item. bytes.now ≡ T.flat (T.told item)) }
    ensures malformed { IfErr result (IsMemoryOr (IsOfNone T.Fits T.flat bytes.now)) }
{
    let mut reader = Reader { rest: bytes };
    let item = T::read(alloc, &mut reader)?;
    if !reader.rest.is_empty() {
        return Err(FlatError::Malformed);
    }
    Ok(item)
}
