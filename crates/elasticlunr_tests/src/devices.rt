//! Readers and writers that give and take little at a time, or fail.
use elasticlunr_device::device::{Fault, FromRead, ToWrite};
use elasticlunr_device::outcome::RunError;
use elasticlunr_job::outcome::{Outcome, Refusal};
use elasticlunr_job::run::{run, status};
use std::alloc::Global;
use std::io;
use std::io::{ErrorKind, Read, Write};
use std::test::Fail;

const JOB: &str = "{\"fields\":[\"body\"],\"docs\":[[\"1\",\"go\"]]}";

const NO_JOB: &str = "{\"fields\":[\"body\"],\"docs\":[[]]}";

/// Gives its bytes in pieces, and fails where its reads are used up.
#[derive(Drop)]
struct Pieces<'a> {
    rest: &'a [u8],
    piece: usize,
    reads: usize,
}

impl Read for Pieces<'_> {
    fn read(&mut self, buf: &mut [u8]) -> io::Result<usize> {
        if self.reads == 0 {
            return Err(ErrorKind::Interrupted.into());
        }
        self.reads -= 1;
        let count = self.piece.min(buf.len()).min(self.rest.len());
        buf[..count].copy_from_slice(&self.rest[..count]);
        self.rest = &self.rest[count..];
        Ok(count)
    }
}

/// Takes bytes in pieces as long as there is room, and then none or fails.
#[derive(Drop)]
struct Room<'a> {
    taken: &'a mut Vec<u8>,
    piece: usize,
    room: usize,
    fails: bool,
}

impl Write for Room<'_> {
    fn write(&mut self, buf: &[u8]) -> io::Result<usize> {
        if self.room == 0 && self.fails {
            return Err(ErrorKind::Other.into());
        }
        let count = buf.len().min(self.piece).min(self.room);
        self.room -= count;
        self.taken.extend_from_slice(&buf[..count])?;
        Ok(count)
    }

    fn flush(&mut self) -> io::Result<()> {
        Ok(())
    }
}

/// How a run over a whole input ends, and what it writes.
pub(crate) fn ran(alloc: Global, input: &[u8], taken: &mut Vec<u8>) -> Result<Outcome, RunError> {
    let mut reader = FromRead::new(input);
    let mut writer = ToWrite::new(Room {
        taken,
        piece: usize::MAX,
        room: usize::MAX,
        fails: true,
    });
    run(alloc, &mut reader, &mut writer)
}

/// A run over pieces of the input, that fails where so many reads are used up.
fn read_in_pieces(
    alloc: Global,
    input: &str,
    piece: usize,
    reads: usize,
    taken: &mut Vec<u8>,
) -> Result<Outcome, RunError> {
    let mut reader = FromRead::new(Pieces {
        rest: input.as_bytes(),
        piece,
        reads,
    });
    let mut writer = ToWrite::new(Room {
        taken,
        piece: 1,
        room: usize::MAX,
        fails: true,
    });
    run(alloc, &mut reader, &mut writer)
}

/// A run whose writer has so much room.
fn written_in_room(
    alloc: Global,
    input: &str,
    room: usize,
    fails: bool,
    taken: &mut Vec<u8>,
) -> Result<Outcome, RunError> {
    let mut reader = FromRead::new(input.as_bytes());
    let mut writer = ToWrite::new(Room {
        taken,
        piece: 7,
        room,
        fails,
    });
    run(alloc, &mut reader, &mut writer)
}

#[test]
fn short_reads_lose_nothing(rt: HostRuntime) -> Result<(), Fail> {
    let mut whole = Vec::new(rt.alloc());
    assert_eq!(rt;
        ran(rt.alloc(), JOB.as_bytes(), &mut whole),
        Ok(Outcome::Printed)
    );
    for piece in 1..JOB.len() + 1 {
        let mut taken = Vec::new(rt.alloc());
        let ended = read_in_pieces(rt.alloc(), JOB, piece, 1000, &mut taken);
        assert_eq!(rt; ended, Ok(Outcome::Printed));
        assert!(rt;
            taken.as_slice() == whole.as_slice(),
            "in pieces of {piece}"
        );
    }
    Ok(())
}

#[test]
fn a_failed_read_is_a_fault(rt: HostRuntime) -> Result<(), Fail> {
    for input in [JOB, NO_JOB, ""] {
        for reads in 0..input.len() + 1 {
            let mut taken = Vec::new(rt.alloc());
            let ended = read_in_pieces(rt.alloc(), input, 1, reads, &mut taken);
            assert_eq!(rt; ended, Err(RunError::Device), "at read {reads}");
            assert_eq!(rt; status(&ended), 1);
            assert!(rt; taken.is_empty());
        }
    }
    Ok(())
}

#[test]
fn a_failed_write_leaves_a_beginning(rt: HostRuntime) -> Result<(), Fail> {
    for input in [JOB, NO_JOB] {
        let mut whole = Vec::new(rt.alloc());
        assert!(rt; ran(rt.alloc(), input.as_bytes(), &mut whole).is_ok());
        for room in 0..whole.len() {
            for fails in [true, false] {
                let mut taken = Vec::new(rt.alloc());
                let ended = written_in_room(rt.alloc(), input, room, fails, &mut taken);
                assert_eq!(rt; ended, Err(RunError::Device));
                assert!(rt;
                    taken.len() == room && whole.starts_with(&taken),
                    "after {room} bytes"
                );
            }
        }
    }
    Ok(())
}

#[test]
fn a_fault_may_come_after_an_answer(rt: HostRuntime) -> Result<(), Fail> {
    let mut taken = Vec::new(rt.alloc());
    let ended = written_in_room(rt.alloc(), NO_JOB, 19, true, &mut taken);
    assert_eq!(rt; ended, Ok(Outcome::Refused(Refusal::NotAJob)));
    assert!(rt; taken.as_slice() == b"refused: not a job\n".as_slice());
    Ok(())
}

#[test]
fn tells_its_fault(rt: HostRuntime) -> Result<(), Fail> {
    let text = format!(in rt.alloc(); "{Fault}")?;
    assert_eq!(rt; text.as_str(), "device fault");
    Ok(())
}
