//! `build --pieces`: an index in a folder, as a head and pieces.
//!
//! The pieces are written to a new folder, and then published.
ghost use Rattle.std.specs.Prelude.{⊤};

use elasticlunr::{Index, IndexError};
use elasticlunr_cli_words::tell::say;
use elasticlunr_input::index::{Line, Make};
use elasticlunr_lang::AnyLanguage;
use elasticlunr_pieces::{Head, Pieces};
use elasticlunr_publish::site::{Fault, Site, is_busy, publish};
use std::alloc::AllocError;
use std::{fs, io};

/// The bytes that a piece of the tries may have where no others are asked for.
pub const PIECE_SIZE: usize = 8_192;

/// Why no pieces are written.
#[derive(Drop)]
enum Stop {
    File(Fault),
    Memory,
}

impl From<AllocError> for Stop {
    fn from(_refused: AllocError) -> Stop {
        Stop::Memory
    }
}

impl From<IndexError> for Stop {
    fn from(_refused: IndexError) -> Stop {
        Stop::Memory
    }
}

/// What the options ask for: the folder, the bytes of a piece, and whether the text of the index is
/// written as well.
#[derive(Drop)]
pub struct Cutting<'r> {
    pub rt: &'r HostRuntime,
    pub folder: &'r str,
    /// A new folder in this one, to which the pieces are written.
    pub temporary: &'r str,
    pub size: usize,
    /// The field of the titles.
    pub title: &'r str,
    pub with_text: bool,
}

/// Pieces that are written to the temporary folder.
#[derive(Drop)]
pub struct Cut {
    pub head: Head,
    pub sizes: Sizes,
    /// The text of the index, and a line feed, where it is asked for.
    pub text: Option<String>,
}

impl Make for Cutting<'_> {
    type Made = Result<Cut, Fault>;

    ghost makes = { λ _ _ _ _ _. ⊤ };

    fn make(
        &self,
        index: &Index<AnyLanguage>,
        pretty: bool,
    ) -> Result<Result<Cut, Fault>, IndexError> {
        let text = if self.with_text {
            Some(Line.make(index, pretty)?)
        } else {
            None
        };
        match self.fill(index) {
            Ok((head, sizes)) => Ok(Ok(Cut { head, sizes, text })),
            Err(Stop::File(fault)) => Ok(Err(fault)),
            Err(Stop::Memory) => Err(IndexError::Memory),
        }
    }
}

/// How many pieces there are, and the bytes of the largest one and of all.
#[derive(Clone, Copy)]
pub struct Sizes {
    pub count: usize,
    pub largest: usize,
    pub bytes: usize,
}

impl Cutting<'_> {
    /// Writes the pieces of an index to the temporary folder, one after the other.
    fn fill(&self, index: &Index<AnyLanguage>) -> Result<(Head, Sizes), Stop> {
        let (alloc, folder) = (self.rt.alloc(), self.temporary);
        let names = index.names()?;
        let mut pieces = Pieces::new(alloc, index.parts(&names)?, self.title, self.size)?;
        let mut sizes = Sizes {
            count: 0,
            largest: 0,
            bytes: 0,
        };
        for _ in 0..usize::MAX {
            let Some(piece) = pieces.next_piece()? else {
                break;
            };
            let name = &piece.name;
            let file = format!(in alloc; "{folder}/{name}")?;
            if let Err(error) = fs::write(self.rt, file.as_str(), piece.text.as_str()) {
                return Err(Stop::File(Fault { file, error }));
            }
            let bytes = piece.text.len();
            sizes = Sizes {
                count: sizes.count.saturating_add(1),
                largest: sizes.largest.max(bytes),
                bytes: sizes.bytes.saturating_add(bytes),
            };
        }
        Ok((pieces.head()?, sizes))
    }
}

/// Publishes the pieces, and says what could not be removed.
pub fn publish_pieces(
    cutting: &Cutting<'_>,
    head: &Head,
    keep: usize,
) -> io::Result<Result<(), Fault>> {
    let folder = cutting.folder;
    if is_busy(cutting.rt, folder) {
        let line = format!(in cutting.rt.alloc();
            "elasticlunr: {folder}: waits for another build"
        )?;
        say(cutting.rt, line.as_str())?;
    }
    let site = Site {
        folder,
        pieces: cutting.temporary,
        name: head.folder.as_str(),
        head: head.text.as_str(),
        keep,
    };
    match publish(cutting.rt, &site)? {
        Ok(faults) => {
            for fault in &faults {
                warn_of(cutting.rt, fault)?;
            }
            Ok(Ok(()))
        }
        Err(fault) => Ok(Err(fault)),
    }
}

/// Says that a folder of an earlier head stays for now.
fn warn_of(rt: &HostRuntime, fault: &Fault) -> io::Result<()> {
    let (file, error) = (&fault.file, &fault.error);
    let left = "it is left for the next build to remove";
    let line = format!(in rt.alloc(); "elasticlunr: {file}: warning: {error}; {left}")?;
    say(rt, line.as_str())
}
