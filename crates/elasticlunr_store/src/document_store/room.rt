//! How much room the compact text of a document store takes.
use super::DocumentStore;
use std::collections::BTreeMap;

// What an object takes besides its key and its members: `"":{},`.
const OBJECT: usize = 6;

// What a text takes besides its key, where no character of it is escaped: `"":"",`.
const TEXT: usize = 6;

// What a length takes besides its key, where it has up to seven digits: `"":1000000,`.
const LENGTH: usize = 11;

impl DocumentStore {
    /// About how many bytes the compact text of the store takes, for a caller who makes room for
    /// it. It is less than the text where texts have characters that are escaped. No result depends
    /// on it, and no clause says what it is. A step for each text and each length; does not
    /// allocate.
    pub fn text_room(&self) -> usize {
        let mut room = 0usize;
        for (doc_ref, texts) in self.docs.iter() {
            room = room.saturating_add(doc_ref.len().saturating_add(OBJECT));
            room = room.saturating_add(room_of_texts(texts));
        }
        for (doc_ref, lengths) in self.doc_info.iter() {
            room = room.saturating_add(doc_ref.len().saturating_add(OBJECT));
            room = room.saturating_add(room_of_lengths(lengths));
        }
        room
    }
}

// The room of the texts of a document.
fn room_of_texts(texts: &BTreeMap<String, String>) -> usize {
    let mut room = 0usize;
    for (field, text) in texts.iter() {
        let named = field.len().saturating_add(TEXT);
        room = room.saturating_add(named.saturating_add(text.len()));
    }
    room
}

// The room of the lengths of a document.
fn room_of_lengths(lengths: &BTreeMap<String, usize>) -> usize {
    let mut room = 0usize;
    for (field, _) in lengths.iter() {
        room = room.saturating_add(field.len().saturating_add(LENGTH));
    }
    room
}
