//! What is searched for, read from the front of bytes.

ghost use Rattle.std.specs.Prelude.{Bool, ℕ};
ghost use Rattle.elasticlunr_flat.specs.Flat as spec;
ghost use Rattle.elasticlunr_flat.specs.Flat.{flat_number, flat_truth, flat_pair, flat_needed};
ghost use Rattle.elasticlunr_flat.specs.Flat.{flat_search, IsNumber, IsByte, IsPair, IsSearch};
ghost use Rattle.elasticlunr_flat.specs.Reading.{IsAnyTruth, IsAnyNeeded};
ghost use Rattle.elasticlunr_flat.specs.Told.{needed_told, search_told};
ghost use Rattle.elasticlunr_flat.specs.OneWay.{number_one_way, byte_one_way, truth_one_way};
ghost use Rattle.elasticlunr_flat.specs.OneWay.{pair_one_way, needed_one_way, search_one_way};

use crate::fault::FlatError;
use crate::form::{Needed, Search};
use crate::items::Item;
use crate::reader::Reader;
use std::alloc::Global;

/// What a search has, in order.
type Parts<'a> = (
    &'a str,
    (Needed, (bool, (Vec<&'a str>, (Vec<(&'a str, u8)>, u32)))),
);

impl<'a> Item<'a> for u32 {
    ghost Told = { ℕ };

    ghost told = { λ number. number };

    ghost Fits = { IsNumber };

    ghost flat = { flat_number };

    ghost one_way = { number_one_way };

    fn read(_alloc: Global, reader: &mut Reader<'a>) -> Result<u32, FlatError> {
        Ok(reader.number()?)
    }
}

impl<'a> Item<'a> for u8 {
    ghost Told = { ℕ };

    ghost told = { λ byte. byte };

    ghost Fits = { IsByte };

    ghost flat = { flat_number };

    ghost one_way = { byte_one_way };

    fn read(_alloc: Global, reader: &mut Reader<'a>) -> Result<u8, FlatError> {
        let number = reader.number()?;
        if number > 255 {
            return Err(FlatError::Malformed);
        }
        Ok(number as u8)
    }
}

impl<'a> Item<'a> for bool {
    ghost Told = { Bool };

    ghost told = { λ truth. truth };

    ghost Fits = { IsAnyTruth };

    ghost flat = { flat_truth };

    ghost one_way = { truth_one_way };

    fn read(_alloc: Global, reader: &mut Reader<'a>) -> Result<bool, FlatError> {
        Ok(reader.truth()?)
    }
}

impl<'a, A: Item<'a>, B: Item<'a>> Item<'a> for (A, B) {
    ghost Told = { A.Told × B.Told };

    ghost told = { λ pair. (A.told pair.0, B.told pair.1) };

    ghost Fits = { IsPair A.Fits B.Fits };

    ghost flat = { flat_pair A.flat B.flat };

    ghost one_way = { pair_one_way A.Fits A.flat A.one_way B.Fits B.flat B.one_way };

    fn read(alloc: Global, reader: &mut Reader<'a>) -> Result<(A, B), FlatError> {
        let first = A::read(alloc, reader)?;
        let second = B::read(alloc, reader)?;
        Ok((first, second))
    }
}

impl<'a> Item<'a> for Needed {
    ghost Told = { spec.Needed };

    ghost told = { needed_told };

    ghost Fits = { IsAnyNeeded };

    ghost flat = { flat_needed };

    ghost one_way = { needed_one_way };

    fn read(_alloc: Global, reader: &mut Reader<'a>) -> Result<Needed, FlatError> {
        match reader.number()? {
            0 => Ok(Needed::One),
            1 => Ok(Needed::EachInOneField),
            2 => Ok(Needed::Each),
            _ => Err(FlatError::Malformed),
        }
    }
}

impl<'a> Item<'a> for Search<'a> {
    ghost Told = { spec.Search };

    ghost told = { search_told };

    ghost Fits = { IsSearch };

    ghost flat = { flat_search };

    ghost one_way = { search_one_way };

    fn read(alloc: Global, reader: &mut Reader<'a>) -> Result<Search<'a>, FlatError> {
        let (query, (needed, (expand, (fields, (boosts, limit))))) = Parts::read(alloc, reader)?;
        Ok(Search {
            query,
            needed,
            expand,
            fields,
            boosts,
            limit,
        })
    }
}
