//! Items that stand one after the other, each read from the front of what is left.

ghost use Rattle.std.specs.Prelude.{IfOk, IfErr, List, map};
ghost use Rattle.elasticlunr_error.specs.Text.{Bytes};
ghost use Rattle.elasticlunr_flat.specs.Flat as spec;
ghost use Rattle.elasticlunr_flat.specs.Flat.{flat_text, flat_list, flat_language, flat_tokens};
ghost use Rattle.elasticlunr_flat.specs.Flat.{flat_value, flat_document, flat_input};
ghost use Rattle.elasticlunr_flat.specs.Flat.{IsText, IsList, IsLanguage, AreTokens};
ghost use Rattle.elasticlunr_flat.specs.Flat.{IsValue, IsDocument, IsInput};
ghost use Rattle.elasticlunr_flat.specs.Reading.{IsRead, BeginsWithNone, IsReadOneWay, IsMemoryOr};
ghost use Rattle.elasticlunr_flat.specs.Told.{language_told, tokens_told, value_told};
ghost use Rattle.elasticlunr_flat.specs.Told.{document_told, input_told};
ghost use Rattle.elasticlunr_flat.specs.OneWay.{text_one_way, list_one_way, language_one_way};
ghost use Rattle.elasticlunr_flat.specs.OneWay.{tokens_one_way, value_one_way};
ghost use Rattle.elasticlunr_flat.specs.OneWay.{document_one_way, input_one_way};

use crate::fault::FlatError;
use crate::form::{Document, GivenTokens, Input, LanguageName, Value};
use crate::reader::Reader;
use std::alloc::Global;

/// What has a flat form.
pub(crate) trait Item<'a>: Sized + Drop {
    /// What it is apart from where it lies in memory.
    ghost Told: { Type 0 };

    ghost told: { Self → Told };

    /// It has a flat form.
    ghost Fits: { Told → Type 0 };

    /// Its bytes.
    ghost flat: { Told → Bytes };

    /// Reads one from the front.
    fn read(alloc: Global, reader: &mut Reader<'a>) -> Result<Self, FlatError>
        ensures ok { IfOk result (λ item.
            IsRead Fits flat reader.old.rest.now (told item) reader.new.rest.now) }
        ensures malformed { IfErr result (IsMemoryOr
            (BeginsWithNone Fits flat reader.old.rest.now)) };

    ghost one_way: { IsReadOneWay Fits flat };
}

impl<'a> Item<'a> for &'a str {
    ghost Told = { Bytes };

    ghost told = { λ text. text.now };

    ghost Fits = { IsText };

    ghost flat = { flat_text };

    ghost one_way = { text_one_way };

    fn read(_alloc: Global, reader: &mut Reader<'a>) -> Result<&'a str, FlatError> {
        Ok(reader.text()?)
    }
}

impl<'a, T: Item<'a>> Item<'a> for Vec<T> {
    ghost Told = { List T.Told };

    ghost told = { λ items. map T.told items.items };

    ghost Fits = { IsList T.Fits };

    ghost flat = { flat_list T.flat };

    ghost one_way = { list_one_way T.Fits T.flat T.one_way };

    fn read(alloc: Global, reader: &mut Reader<'a>) -> Result<Vec<T>, FlatError> {
        let count = reader.number()?;
        let mut items = Vec::new(alloc);
        for _ in 0..count {
            items.push(T::read(alloc, reader)?)?;
        }
        Ok(items)
    }
}

impl<'a> Item<'a> for LanguageName<'a> {
    ghost Told = { spec.Language };

    ghost told = { language_told };

    ghost Fits = { IsLanguage };

    ghost flat = { flat_language };

    ghost one_way = { language_one_way };

    fn read(alloc: Global, reader: &mut Reader<'a>) -> Result<LanguageName<'a>, FlatError> {
        match reader.number()? {
            0 => Ok(LanguageName::BuiltIn(reader.text()?)),
            1 => Ok(LanguageName::Own {
                name: reader.text()?,
                stages: Vec::read(alloc, reader)?,
            }),
            2 => Ok(LanguageName::Stemmed(reader.text()?)),
            _ => Err(FlatError::Malformed),
        }
    }
}

impl<'a> Item<'a> for GivenTokens<'a> {
    ghost Told = { spec.Tokens };

    ghost told = { tokens_told };

    ghost Fits = { AreTokens };

    ghost flat = { flat_tokens };

    ghost one_way = { tokens_one_way };

    fn read(alloc: Global, reader: &mut Reader<'a>) -> Result<GivenTokens<'a>, FlatError> {
        match reader.number()? {
            0 => Ok(GivenTokens::FromText),
            1 => Ok(GivenTokens::IntoPipeline(Vec::read(alloc, reader)?)),
            2 => Ok(GivenTokens::AsGiven(Vec::read(alloc, reader)?)),
            _ => Err(FlatError::Malformed),
        }
    }
}

impl<'a> Item<'a> for Value<'a> {
    ghost Told = { spec.Value };

    ghost told = { value_told };

    ghost Fits = { IsValue };

    ghost flat = { flat_value };

    ghost one_way = { value_one_way };

    fn read(alloc: Global, reader: &mut Reader<'a>) -> Result<Value<'a>, FlatError> {
        Ok(Value {
            text: reader.text()?,
            tokens: GivenTokens::read(alloc, reader)?,
        })
    }
}

impl<'a> Item<'a> for Document<'a> {
    ghost Told = { spec.Document };

    ghost told = { document_told };

    ghost Fits = { IsDocument };

    ghost flat = { flat_document };

    ghost one_way = { document_one_way };

    fn read(alloc: Global, reader: &mut Reader<'a>) -> Result<Document<'a>, FlatError> {
        Ok(Document {
            reference: reader.text()?,
            values: Vec::read(alloc, reader)?,
        })
    }
}

impl<'a> Item<'a> for Input<'a> {
    ghost Told = { spec.Input };

    ghost told = { input_told };

    ghost Fits = { IsInput };

    ghost flat = { flat_input };

    ghost one_way = { input_one_way };

    fn read(alloc: Global, reader: &mut Reader<'a>) -> Result<Input<'a>, FlatError> {
        Ok(Input {
            language: LanguageName::read(alloc, reader)?,
            reference_field: reader.text()?,
            save: reader.truth()?,
            fields: Vec::read(alloc, reader)?,
            documents: Vec::read(alloc, reader)?,
        })
    }
}
