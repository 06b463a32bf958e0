//! Readers and writers that fail, stop short or are interrupted.

ghost use Rattle.std.specs.Prelude.{◌≤◌, length};

use crate::replay_answers::{Answer, answer_to, replay};
use crate::replay_files::{FIRST, FIRST_BOARD};
use contest_fixtures::text_of;
use std::alloc::Global;
use std::io;
use std::io::{Read, Write};
use std::test::Fail;

/// Moves as many bytes as both sides and the piece allow from the file to the buffer.
fn take_piece(file: &mut &[u8], buf: &mut [u8], piece: usize) -> usize
    ensures { result ≤ length buf.old }
{
    let count = file.len().min(buf.len()).min(piece);
    buf[..count].copy_from_slice(&file[..count]);
    *file = &file[count..];
    count
}

/// Is interrupted so many times, gives its file in pieces, and then ends or fails.
#[derive(Drop)]
struct Source<'a> {
    interrupts: u32,
    file: &'a [u8],
    piece: usize,
    fails: bool,
}

impl Read for Source<'_> {
    fn read(&mut self, buf: &mut [u8]) -> io::Result<usize> {
        if self.interrupts > 0 {
            self.interrupts -= 1;
            return Err(io::Error::from(io::ErrorKind::Interrupted));
        }
        if self.file.is_empty() && self.fails {
            return Err(io::Error::from(io::ErrorKind::BrokenPipe));
        }
        Ok(take_piece(&mut self.file, buf, self.piece))
    }
}

/// Takes so many bytes in pieces, and then fails, at a flush too, or takes no more.
#[derive(Drop)]
struct Full {
    taken: Vec<u8>,
    room: usize,
    piece: usize,
    fails: bool,
}

impl Write for Full {
    fn write(&mut self, buf: &[u8]) -> io::Result<usize> {
        let count = buf.len().min(self.room).min(self.piece);
        if count == 0 && self.fails && !buf.is_empty() {
            return Err(io::Error::from(io::ErrorKind::BrokenPipe));
        }
        self.taken.extend_from_slice(&buf[..count])?;
        self.room -= count;
        Ok(count)
    }

    fn flush(&mut self) -> io::Result<()> {
        if self.room == 0 && self.fails {
            return Err(io::Error::from(io::ErrorKind::BrokenPipe));
        }
        Ok(())
    }
}

/// What the command gives where its reader fails after the file.
fn broken(alloc: Global, file: &[u8], piece: usize) -> Answer {
    let mut reader = Source {
        interrupts: 0,
        file,
        piece,
        fails: true,
    };
    answer_to(alloc, &["replay"], &mut reader)
}

/// A file with a fault at its second line.
const BAD: &str = "kind,id,f1,f2,f3\ncontest,c,Cup,1:00:00,\nnonsense\n";

/// A failing reader is told even where the file has a fault before it.
#[test]
fn refuses_a_reader_that_fails(rt: HostRuntime) -> Result<(), Fail> {
    for (file, piece) in [(FIRST.as_bytes(), 7), (BAD.as_bytes(), 1)] {
        for cut in 0..=file.len() {
            let answer = broken(rt.alloc(), &file[..cut], piece);
            assert!(rt;
                answer.is(1, "", "refused: File\n"),
                "cut at {cut}: {answer}"
            );
        }
    }
    Ok(())
}

/// What the command gives where so many reads are interrupted.
fn interrupted(alloc: Global, file: &[u8], interrupts: u32) -> Answer {
    let mut reader = Source {
        interrupts,
        file,
        piece: 64,
        fails: false,
    };
    answer_to(alloc, &["replay"], &mut reader)
}

/// How many reads are interrupted, and what comes of it.
static INTERRUPTED: [(u32, u8, &str, &str); 3] = [
    (1, 0, FIRST_BOARD, ""),
    (1000, 0, FIRST_BOARD, ""),
    (1001, 1, "", "refused: File\n"),
];

#[test]
fn tries_an_interrupted_read_a_thousand_times(rt: HostRuntime) -> Result<(), Fail> {
    for (times, status, board, line) in &INTERRUPTED {
        let answer = interrupted(rt.alloc(), FIRST.as_bytes(), *times);
        assert!(rt; answer.is(*status, board, line), "{times} times: {answer}");
    }
    Ok(())
}

/// What the command gives, of which standard output takes so many bytes.
fn written(alloc: Global, file: &[u8], room: usize, piece: usize, fails: bool) -> Answer {
    let mut reader = file;
    let mut out = Full {
        taken: Vec::new(alloc),
        room,
        piece,
        fails,
    };
    let mut err = Vec::new(alloc);
    let status = replay(alloc, &["replay"], &mut reader, &mut out, &mut err);
    Answer {
        status,
        out: out.taken,
        err,
    }
}

#[test]
fn refuses_a_writer_that_fails_at_any_byte(rt: HostRuntime) -> Result<(), Fail> {
    let board = FIRST_BOARD.as_bytes();
    for room in 0..=board.len() {
        let front = text_of(&board[..room]);
        for (piece, fails) in [
            (3, true),
            (3, false),
            (board.len(), true),
            (board.len(), false),
        ] {
            let answer = written(rt.alloc(), FIRST.as_bytes(), room, piece, fails);
            let is_done = room == board.len() && !fails;
            let status = u8::from(!is_done);
            let line = if is_done { "" } else { "refused: File\n" };
            assert!(rt; answer.is(status, front, line), "{room} bytes: {answer}");
        }
    }
    Ok(())
}

/// What the command gives for a file that it refuses, of which standard error takes so many bytes.
fn refused(alloc: Global, room: usize, fails: bool) -> Answer {
    let mut reader = b"kind".as_slice();
    let mut out = Vec::new(alloc);
    let mut err = Full {
        taken: Vec::new(alloc),
        room,
        piece: 3,
        fails,
    };
    let status = replay(alloc, &["replay"], &mut reader, &mut out, &mut err);
    Answer {
        status,
        out,
        err: err.taken,
    }
}

#[test]
fn keeps_its_status_where_the_line_cannot_be_written(rt: HostRuntime) -> Result<(), Fail> {
    let line = b"refused: E1 Malformed\n".as_slice();
    for room in 0..=line.len() {
        let front = text_of(&line[..room]);
        for fails in [true, false] {
            let answer = refused(rt.alloc(), room, fails);
            assert!(rt; answer.is(1, "", front), "{room} bytes: {answer}");
        }
    }
    Ok(())
}
