//! How much room the compact text of an inverted index takes.
use super::InvertedIndex;

// What a node without postings takes at most: `"c":{"df":0,"docs":{}},`, where the character takes
// four bytes.
const NODE: usize = 26;

// What a posting takes besides its reference, with a frequency of seven digits:
// `"":{"tf":1000000},`.
const POSTING: usize = 18;

impl InvertedIndex {
    /// About how many bytes the compact text of the trie takes, for a caller who makes room for it.
    /// It is mostly a little more than the text. No result depends on it, and no clause says what it
    /// is. A step for each reference; does not allocate.
    pub fn text_room(&self) -> usize {
        let mut room = self.nodes.len().saturating_mul(NODE);
        for (number, reference) in self.references.iter().enumerate() {
            let posting = self.name_len(number).saturating_add(POSTING);
            room = room.saturating_add(reference.nodes.len().saturating_mul(posting));
        }
        room
    }

    // How many bytes the name of a number has.
    fn name_len(&self, number: usize) -> usize {
        if number < self.names.len() {
            self.names.name(number).len()
        } else {
            0
        }
    }
}
