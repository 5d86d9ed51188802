//! Readers that keep a mark of a failed read.

ghost use Rattle.std.specs.Prelude.{◌≡◌, ◌≢◌, Bool, false, true, IfErr, OnOk};
ghost use Rattle.std.specs.Io.{ReadsAtMost};
ghost use Rattle.std.specs.Io.Buffered.{reader_inner};
ghost use Rattle.std.specs.Io.Chain.{chain_second};
ghost use Rattle.std.specs.Io.KnownBytes.{ReadConsumes};
ghost use Rattle.std.specs.IoError.{error_kind};

use std::io::{self, BufRead, BufReader, Chain, ErrorKind, Read};

/// A reader that keeps a mark that a read has failed. An interrupted read, which is tried again, is
/// no failure.
pub trait MarkedRead: BufRead {
    /// Whether a read has failed.
    ghost has_failed: { Self → Bool };

    /// Whether a read has failed.
    fn has_failed(&self) -> bool
        ensures { result ≡ has_failed self.now };
}

/// Any reader, with a mark. A buffer over it is a [`MarkedRead`].
#[derive(Drop)]
pub struct Marked<R> {
    reader: R,
    failed: bool,
}

impl<R: Read> Marked<R> {
    /// A reader that has not failed yet. Does not allocate.
    pub fn new(reader: R) -> Marked<R>
        ensures bytes { ⟦<Marked<R> as Read>⟧.remaining result ≡ R.remaining reader }
        ensures unmarked { result.failed ≡ false }
    {
        Marked {
            reader,
            failed: false,
        }
    }
}

impl<R: Read> Read for Marked<R> {
    ghost remaining = { λ marked. R.remaining marked.reader };

    fn read(&mut self, buf: &mut [u8]) -> io::Result<usize>
        ensures bound { ReadsAtMost result buf.new }
        ensures bytes { ReadConsumes (R.remaining self.old.reader) (R.remaining self.new.reader)
            result buf.new }
        ensures ok { OnOk result (self.new.failed ≡ self.old.failed) }
        ensures failed { IfErr result (λ e. error_kind e ≢ ErrorKind.Interrupted → self.new.failed
            ≡ true) }
        ensures interrupted { IfErr result (λ e. error_kind e ≡ ErrorKind.Interrupted
            → self.new.failed ≡ self.old.failed) }
    {
        let result = self.reader.read(buf);
        if let Err(e) = &result {
            if e.kind() != ErrorKind::Interrupted {
                self.failed = true;
            }
        }
        result
    }
}

impl<R: Read> MarkedRead for BufReader<Marked<R>> {
    ghost has_failed = { λ reader. (reader_inner reader).failed };

    fn has_failed(&self) -> bool {
        self.get_ref().failed
    }
}

/// A text in memory: no read fails.
impl MarkedRead for &[u8] {
    ghost has_failed = { λ _. false };

    fn has_failed(&self) -> bool {
        false
    }
}

impl<R: MarkedRead> MarkedRead for &mut R {
    ghost has_failed = { λ reader. R.has_failed reader.now };

    fn has_failed(&self) -> bool {
        R::has_failed(&**self)
    }
}

/// A text in memory, and then a reader.
impl<R: MarkedRead> MarkedRead for Chain<&[u8], R> {
    ghost has_failed = { λ chain. R.has_failed (chain_second chain) };

    fn has_failed(&self) -> bool {
        self.get_ref().1.has_failed()
    }
}
