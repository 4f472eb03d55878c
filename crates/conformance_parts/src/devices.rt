//! Devices that move little, are interrupted, or fail.

ghost use Rattle.std.specs.Prelude.{◌≡◌};

use gfxspec::{FromRead, GatherError, Sink, Source, ToWrite, gather, put_all};
use std::io::{self, ErrorKind, Read, Write};
use std::test::Fail;

/// What a device does at a call.
#[derive(Clone, Copy, PartialEq, Eq)]
enum Turn {
    /// Moves so many bytes at most.
    Moves(usize),
    Interrupts,
    Fails,
}

/// The turns of a device, one a call; behind them it moves all that it can.
#[derive(Drop)]
struct Turns {
    left: &'static [Turn],
}

impl Turns {
    ghost use Rattle.std.specs.Prelude.{◌≤◌, IfOk};

    /// How many of the bytes that could be moved are moved at this call.
    fn next(&mut self, most: usize) -> io::Result<usize>
        ensures { IfOk result (λ n. n ≤ most) }
    {
        let Some((turn, left)) = self.left.split_first() else {
            return Ok(most);
        };
        self.left = left;
        match *turn {
            Turn::Moves(count) => Ok(count.min(most)),
            Turn::Interrupts => Err(ErrorKind::Interrupted.into()),
            Turn::Fails => Err(ErrorKind::Other.into()),
        }
    }
}

#[derive(Drop)]
struct Reader {
    left: &'static [u8],
    turns: Turns,
}

impl Read for Reader {
    fn read(&mut self, piece: &mut [u8]) -> io::Result<usize> {
        let count = self.turns.next(piece.len().min(self.left.len()))?;
        let (front, back) = self.left.split_at(count);
        piece[..count].copy_from_slice(front);
        self.left = back;
        Ok(count)
    }
}

#[derive(Drop)]
struct Writer {
    taken: Vec<u8>,
    turns: Turns,
}

impl Write for Writer {
    fn write(&mut self, piece: &[u8]) -> io::Result<usize> {
        let count = self.turns.next(piece.len())?;
        self.taken.extend_from_slice(&piece[..count])?;
        Ok(count)
    }

    fn flush(&mut self) -> io::Result<()> {
        Ok(())
    }
}

fn source(left: &'static [u8], turns: &'static [Turn]) -> FromRead<Reader>
    ensures { result.failures ≡ 0 }
{
    FromRead::new(Reader {
        left,
        turns: Turns { left: turns },
    })
}

static LINE: [u8; 11] = *b"target 4 4\n";

static MORE_THAN_A_PIECE: [u8; 9000] = [7; 9000];

#[test]
fn little_and_interrupted_reads_give_all(rt: HostRuntime) -> Result<(), Fail> {
    let mut little = source(
        &LINE,
        &[
            Turn::Moves(3),
            Turn::Interrupts,
            Turn::Interrupts,
            Turn::Moves(1),
        ],
    );
    let bytes = gather(rt.alloc(), &mut little)?;
    assert!(rt; bytes.as_slice() == LINE.as_slice());
    assert!(rt; little.failures() == 0);
    let mut long = source(&MORE_THAN_A_PIECE, &[Turn::Moves(4095)]);
    let bytes = gather(rt.alloc(), &mut long)?;
    assert!(rt; bytes.as_slice() == MORE_THAN_A_PIECE.as_slice());
    let mut empty = source(&[], &[Turn::Interrupts]);
    assert!(rt; gather(rt.alloc(), &mut empty)?.is_empty());
    Ok(())
}

#[test]
fn a_failed_read_is_no_end(rt: HostRuntime) {
    let early: &[Turn] = &[Turn::Fails];
    for turns in [
        early,
        &[Turn::Moves(3), Turn::Fails],
        &[Turn::Interrupts, Turn::Moves(11), Turn::Fails],
    ] {
        let mut failing = source(&LINE, turns);
        assert!(rt; gather(rt.alloc(), &mut failing).err() == Some(GatherError::Read));
        assert!(rt; failing.failures() == 1);
    }
}

#[test]
fn little_and_interrupted_writes_take_all(rt: HostRuntime) {
    let mut writer = Writer {
        taken: Vec::new(rt.alloc()),
        turns: Turns {
            left: &[
                Turn::Moves(3),
                Turn::Interrupts,
                Turn::Interrupts,
                Turn::Moves(1),
            ],
        },
    };
    let mut sink = ToWrite::new(&mut writer);
    assert!(rt; put_all(&mut sink, &LINE) == Ok(()));
    assert!(rt; sink.failures() == 0);
    assert!(rt; writer.taken.as_slice() == LINE.as_slice());
}

// A write that takes nothing is a failure too.
#[test]
fn a_failed_write_says_what_was_taken(rt: HostRuntime) {
    let early: &[Turn] = &[Turn::Fails];
    for (turns, taken) in [
        (early, 0),
        (&[Turn::Moves(3), Turn::Fails], 3),
        (
            &[
                Turn::Moves(3),
                Turn::Interrupts,
                Turn::Moves(7),
                Turn::Moves(0),
            ],
            10,
        ),
    ] {
        let mut writer = Writer {
            taken: Vec::new(rt.alloc()),
            turns: Turns { left: turns },
        };
        let mut sink = ToWrite::new(&mut writer);
        assert!(rt; put_all(&mut sink, &LINE) == Err(taken));
        assert!(rt; sink.failures() == 1);
        assert!(rt; writer.taken.as_slice() == &LINE[..taken]);
    }
}

#[test]
fn nothing_of_nothing_is_no_failure(rt: HostRuntime) {
    let mut reading = source(&LINE, &[]);
    assert!(rt; reading.get(&mut []) == Ok(0));
    assert!(rt; reading.failures() == 0);
    let mut writing = ToWrite::new(Vec::new(rt.alloc()));
    assert!(rt; writing.put(&[]) == Ok(0));
    assert!(rt; writing.failures() == 0);
}
