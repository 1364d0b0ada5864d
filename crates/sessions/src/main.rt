// Plays the stored files that the arguments name, each under a line with its name. docs/RECORDED.md has their form: a number, as many pairs of words, and records.
#![tactic(auto)]

ghost use Rattle.std.specs.Prelude.{◌+◌, ◌*◌, ◌≤◌, length};

use std::env::{Env, FillError};
use std::fs::File;
use std::io::{Read, Seek, SeekFrom, Write};
use std::rt::Files;
use std::{io, str};

// The most pairs that are read of a file.
const MOST: u64 = 4095;

// A stored file that is played, and where its text goes.
#[derive(Drop)]
struct Session<F, W> {
    file: F,
    writer: W,
}

impl<F: Read + Seek, W: Write> Session<F, W> {
    // The records, which stand from a byte of the file on, played on the first n bytes of the area.
    fn play_records(
        &mut self,
        records: u64,
        area: &mut [u8],
        n: usize,
        started: bool,
    ) -> io::Result<()> {
        if n > area.len() {
            return Ok(());
        }
        let _ = self.file.seek(SeekFrom::Start(records));
        stream::play_input(&mut self.file, &mut self.writer, &mut area[..n], started)
    }

    // A pair is a byte of the area and the word to put there; or, past the area, how many of its bytes are lent to the records, after which it is zero again.
    fn take_pair(&mut self, records: u64, area: &mut [u8], at: usize, value: u64) -> io::Result<()>
        requires { 65536 ≤ length area.old }
    {
        if at < 65529 {
            words::put_word(area, at, value);
            return Ok(());
        }
        self.play_records(records, area, value as usize, at > 65536)?;
        words::put_zeros(area, 0, 8192);
        Ok(())
    }

    fn play(&mut self) -> io::Result<()> {
        let mut head = [0; 65536];
        stream::read_full(&mut self.file, &mut head)?;
        let number = words::word(&head, 0);
        if number > MOST {
            return Ok(());
        }
        let mut area = [0; 65536];
        let records = number * 16 + 8;
        for pair in head[8..records as usize].chunks_exact(16) {
            let at = words::word(pair, 0) as usize;
            self.take_pair(records, &mut area, at, words::word(pair, 8))?;
        }
        Ok(())
    }
}

// A file that cannot be opened is told on standard error, and the next argument has its turn.
fn play_named<R: Files + Print + Eprint>(rt: &R, name: &str) -> io::Result<()> {
    match File::open(rt, name) {
        Ok(file) => {
            rt.println(name)?;
            let mut session = Session {
                file,
                writer: io::writer(rt),
            };
            session.play()
        }
        Err(e) => eprintln!(rt; "{name}: {e}"),
    }
}

// An argument's turn, and whether there was one.
fn play_argument<R: Env + Files + Print + Eprint>(rt: &R, i: usize) -> io::Result<bool> {
    let mut name = [0; 4096];
    match rt.arg(i, &mut name) {
        Ok(n) => match str::from_utf8(&name[..n]) {
            Ok(name) => play_named(rt, name)?,
            Err(e) => eprintln!(rt; "argument {i}: {e}")?,
        },
        Err(FillError::TooLong) => eprintln!(rt; "argument {i}: too long")?,
        Err(FillError::NotPresent) => return Ok(false),
    }
    Ok(true)
}

// Arguments are asked for by number: std's list of them allocates.
fn main(rt: HostRuntime) -> io::Result<()> {
    for i in 1..usize::MAX {
        if !play_argument(&rt, i)? {
            break;
        }
    }
    Ok(())
}
