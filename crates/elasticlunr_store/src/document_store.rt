//! The complete texts of the documents of an index, where they are kept, and the lengths of their
//! fields.
ghost use Rattle.std.specs.Prelude.{◌≡◌, ◌==◌, false, OnOk, OnErr, IfOk, IfErr, IsOkUnless};
ghost use Rattle.std.specs.Option.{option_map};
ghost use Rattle.std.specs.FinMap.{get, contains_key, len};
ghost use Rattle.elasticlunr_error.specs.declared.error.IndexError.TheVariants.{Memory};
ghost use Rattle.elasticlunr_json.specs.Refused.{IsRefused};
ghost use Rattle.elasticlunr_store.specs.Contents.{Contents, IsContents, IsConsistent};
ghost use Rattle.elasticlunr_store.specs.Contents.{new_contents, with_document, with_length};
ghost use Rattle.elasticlunr_store.specs.Contents.{without_document, without, field_length};
ghost use Rattle.elasticlunr_store.specs.Contents.{IsStoreValue, text_map, document_texts};
ghost use Rattle.elasticlunr_store.specs.Contents.{document_lengths};
ghost use Rattle.serde_json.specs.View.{view};
ghost use Rattle.serde_json.specs.Written.{has_float};

mod read;
mod room;
mod write;

use elasticlunr_error::IndexError;
use elasticlunr_store_maps::find::find_length;
use elasticlunr_store_maps::put::{put_texts, set_length};
use elasticlunr_store_maps::read::{
    has_empty, has_text, read_document_lengths, read_document_texts,
};
use elasticlunr_store_maps::same::{same_document_lengths, same_document_texts};
use elasticlunr_store_maps::value::{document_lengths_value, document_texts_value, store_value};
use read::store_parts;
use serde_json::Value;
use std::alloc::Global;
use std::collections::BTreeMap;
use std::marker::Model;

/// The texts of the documents of an index, where they are kept, and how many tokens their fields
/// have.
///
/// It represents its contents: whether texts are kept, a map from references to texts by field, and
/// a map from references to lengths by field. A reference may have lengths and no texts. Where
/// texts are not kept each map of texts is empty.
#[derive(Debug, Drop)]
pub struct DocumentStore {
    alloc: Global,
    save: bool,
    docs: BTreeMap<String, BTreeMap<String, String>>,
    doc_info: BTreeMap<String, BTreeMap<String, usize>>,
}

impl Model for DocumentStore {
    ghost use Rattle.elasticlunr_store.specs.Contents.{Contents, contents_code, contents_of};
    ghost use Rattle.elasticlunr_store.specs.Contents.{IsContents};

    ghost Value = { Contents };

    ghost coded = { contents_code };

    ghost view = { λ a. contents_of a.save a.docs.entries a.doc_info.entries };

    ghost invariant = { λ a. IsContents (contents_of a.save a.docs.entries a.doc_info.entries) };
}

impl DocumentStore {
    /// An empty store, which keeps texts or does not. It does not allocate; later calls take it
    /// from this allocator.
    pub fn new(alloc: Global, save: bool) -> Self
        ensures new { result ≡ new_contents save }
        ensures contents { IsContents result }
    {
        DocumentStore {
            alloc,
            save,
            docs: BTreeMap::new(alloc),
            doc_info: BTreeMap::new(alloc),
        }
    }

    /// How many documents there are.
    pub fn len(&self) -> usize
        ensures { result ≡ len self.now.texts }
    {
        self.docs.len()
    }

    /// Are there no documents? Lengths alone make none.
    pub fn is_empty(&self) -> bool
        ensures { result ≡ (len self.now.texts == 0) }
    {
        self.len() == 0
    }

    /// Whether texts are kept.
    pub fn is_stored(&self) -> bool
        ensures { result ≡ self.now.save }
    {
        self.save
    }

    /// Is there a document of this reference?
    pub fn has_doc(&self, doc_ref: &str) -> bool
        ensures { result ≡ contains_key self.now.texts doc_ref.now }
    {
        self.docs.contains_key(doc_ref)
    }

    /// The reference's texts become the document, or none where texts are not kept.
    pub fn add_doc(
        &mut self,
        doc_ref: &str,
        doc: BTreeMap<String, String>,
    ) -> Result<(), IndexError>
        ensures ok { OnOk result (self.new
            ≡ with_document self.old doc_ref.now (text_map doc.entries)) }
        ensures err { OnErr result (self.new ≡ self.old) }
        ensures memory { IsOkUnless result Memory }
    {
        let doc = if self.save {
            doc
        } else {
            BTreeMap::new(self.alloc)
        };
        put_texts(self.alloc, &mut self.docs, doc_ref, doc)?;
        Ok(())
    }

    /// The texts of the reference go. Its lengths stay.
    pub fn remove_doc(&mut self, doc_ref: &str)
        ensures { self.new ≡ without_document self.old doc_ref.now }
    {
        self.docs.remove(doc_ref);
    }

    /// The texts and the lengths of the reference go.
    pub fn forget_doc(&mut self, doc_ref: &str)
        ensures { self.new ≡ without self.old doc_ref.now }
    {
        self.remove_doc(doc_ref);
        self.doc_info.remove(doc_ref);
    }

    /// Sets one length, also of an unknown reference.
    pub fn add_field_length(
        &mut self,
        doc_ref: &str,
        field: &str,
        length: usize,
    ) -> Result<(), IndexError>
        ensures ok { OnOk result (self.new ≡ with_length self.old doc_ref.now field.now length) }
        ensures err { OnErr result (self.new ≡ self.old) }
        ensures memory { IsOkUnless result Memory }
    {
        set_length(self.alloc, &mut self.doc_info, doc_ref, field, length)?;
        Ok(())
    }

    /// The length that is set, 0 where none is or the document is not there.
    pub fn get_field_length(&self, doc_ref: &str, field: &str) -> usize
        ensures { result ≡ field_length self.now doc_ref.now field.now }
    {
        if self.has_doc(doc_ref) {
            find_length(&self.doc_info, doc_ref, field).unwrap_or(0)
        } else {
            0
        }
    }

    /// The texts of each document.
    pub fn docs(&self) -> &BTreeMap<String, BTreeMap<String, String>>
        ensures { document_texts result.now.entries ≡ self.now.texts }
    {
        &self.docs
    }

    /// The lengths of each document's fields.
    pub fn doc_info(&self) -> &BTreeMap<String, BTreeMap<String, usize>>
        ensures { document_lengths result.now.entries ≡ self.now.lengths }
    {
        &self.doc_info
    }

    /// A copy of the texts of a reference.
    pub fn get_doc(&self, doc_ref: &str) -> Result<Option<BTreeMap<String, String>>, IndexError>
        ensures ok { IfOk result (λ doc. option_map (λ texts. text_map texts.entries) doc
            ≡ get self.now.texts doc_ref.now) }
        ensures memory { IsOkUnless result Memory }
    {
        match self.docs.get(doc_ref) {
            Some(doc) => Ok(Some(doc.clone()?)),
            None => Ok(None),
        }
    }

    /// A store with the same contents, which takes its memory from the same allocator.
    pub fn clone(&self) -> Result<Self, IndexError>
        ensures ok { IfOk result (λ copy. copy ≡ self.now) }
        ensures contents { IsContents self.now }
        ensures memory { IsOkUnless result Memory }
    {
        Ok(DocumentStore {
            alloc: self.alloc,
            save: self.save,
            docs: self.docs.clone()?,
            doc_info: self.doc_info.clone()?,
        })
    }

    /// The JSON value of the store: an object with the keys `docInfo`, `docs`, `length` and `save`.
    pub fn to_value(&self) -> Result<Value, IndexError>
        ensures value { IfOk result (λ v. IsStoreValue self.now (view v)) }
        ensures only { IfOk result (λ v. (c : Contents) → IsStoreValue c (view v) → c ≡ self.now) }
        ensures contents { IsContents self.now }
        ensures whole { IfOk result (λ v. has_float (view v) ≡ false) }
        ensures memory { IsOkUnless result Memory }
    {
        let alloc = self.alloc;
        let docs = document_texts_value(alloc, &self.docs)?;
        let doc_info = document_lengths_value(alloc, &self.doc_info)?;
        Ok(store_value(alloc, self.save, docs, doc_info, self.docs.len())?)
    }

    /// The store whose JSON value this is. Refuses other keys, missing ones, a `length` that is not
    /// the number of documents, an empty map of lengths (a reference without lengths is not in
    /// `docInfo`), and texts where `save` is false.
    pub fn from_value(alloc: Global, value: &Value) -> Result<Self, IndexError>
        ensures ok { IfOk result (λ store. IsStoreValue store (view value.now)) }
        ensures contents { IfOk result (λ store. IsContents store) }
        ensures foreign { IfErr result (IsRefused ((c : Contents)
            → IsConsistent c → ¬ (IsStoreValue c (view value.now)))) }
    {
        let Some(members) = value.as_object() else {
            return Err(IndexError::ForeignValue);
        };
        let Some((doc_info, docs, length, save)) = store_parts(members) else {
            return Err(IndexError::ForeignValue);
        };
        let Some(save) = save.as_bool() else {
            return Err(IndexError::ForeignValue);
        };
        let Some(length) = length.as_u64() else {
            return Err(IndexError::ForeignValue);
        };
        let docs = read_document_texts(alloc, docs)?;
        let doc_info = read_document_lengths(alloc, doc_info)?;
        if docs.len() as u64 != length {
            return Err(IndexError::ForeignValue);
        }
        if has_empty(&doc_info) {
            return Err(IndexError::ForeignValue);
        }
        if !save && has_text(&docs) {
            return Err(IndexError::ForeignValue);
        }
        Ok(DocumentStore {
            alloc,
            save,
            docs,
            doc_info,
        })
    }

    /// How many documents there are.
    pub fn length(&self) -> usize
        ensures { result ≡ len self.now.texts }
    {
        self.docs.len()
    }
}

impl PartialEq for DocumentStore {
    ghost use Rattle.std.specs.Cmp.{partial_equiv_from_equiv};
    ghost use Rattle.elasticlunr_store.specs.Contents.{same_contents};
    ghost use Rattle.elasticlunr_store.specs.Equal.{contents_equivalence};

    ghost eq = { same_contents };

    ghost laws = { partial_equiv_from_equiv contents_equivalence };

    fn eq(&self, other: &DocumentStore) -> bool {
        self.save == other.save
            && same_document_texts(&self.docs, &other.docs)
            && same_document_lengths(&self.doc_info, &other.doc_info)
    }
}

impl Eq for DocumentStore {
    ghost use Rattle.elasticlunr_store.specs.Equal.{contents_equivalence};

    ghost laws = { contents_equivalence };
}
