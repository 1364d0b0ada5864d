// Records from a reader, played on an area; the header and their lines go to a writer.
#![tactic(auto)]

ghost use Rattle.std.specs.Prelude.{◌≡◌, cond, ltb, ◌+◌, ◌-◌, ◌^◌, ◌<◌, ◌≤◌, length, take, IfSome, IfOk, OnOk, OnErr};
ghost use Rattle.std.specs.Io.{ReadsAtMost};
ghost use Rattle.std.specs.Io.KnownBytes.{Appends, Consumes, IsAtEnd, ReadConsumes};
ghost use Rattle.words.specs.Bytes.{Wrote};
ghost use Rattle.record.specs.Record.{long_width, record_width};
ghost use Rattle.record.specs.Text.{most_text};
ghost use Rattle.record.specs.Play.{played, records_of};
ghost use Rattle.stream.specs.Left.{LeftBySome, first_from, printed_from, most_records};

use record::Progress;
use std::io;
use std::io::{ErrorKind, Read, Write};

// How many bytes of the next record were read, none where the input has ended; a run's progress after it, and the place past its text.
// `read` is a number, since the clauses read, bytes and end of `play_next` say how many bytes the reader lost, also where it lost none.
#[derive(Clone, Copy)]
pub struct Turn {
    pub read: usize,
    pub progress: Progress,
    pub end: usize,
}

// One read, made again where a signal interrupts it. A proved loop has to end, so that is counted to a number that no run reaches.
fn read_some<R: Read>(reader: &mut R, bytes: &mut [u8]) -> io::Result<usize>
    ensures bound { ReadsAtMost result bytes.new }
    ensures bytes { ReadConsumes (R.remaining reader.old) (R.remaining reader.new) result bytes.new }
{
    for _ in 0..u64::MAX {
        match reader.read(bytes) {
            Ok(n) => return Ok(n),
            Err(e) => {
                if e.kind() != ErrorKind::Interrupted {
                    return Err(e);
                }
            }
        }
    }
    reader.read(bytes)
}

// Reads until the lent bytes are full or the input ends, and answers how many were read, which std's read_exact does not say.
pub fn read_full<R: Read>(reader: &mut R, bytes: &mut [u8]) -> io::Result<usize>
    ensures bound { ReadsAtMost result bytes.new }
    ensures bytes { IfOk result (λ n. Consumes (R.remaining reader.old) (R.remaining reader.new) (take n bytes.new)) }
    ensures end { IfOk result (λ n. n < length bytes.new → IsAtEnd (R.remaining reader.new)) }
{
    let mut done = 0;
    while done < bytes.len() {
        let n = read_some(reader, &mut bytes[done..])?;
        if n == 0 {
            return Ok(done);
        }
        done += n;
    }
    Ok(done)
}

// The next record, read into the bytes that are lent for it: how many there are, none where the input has ended. After the mark C3 5B four more than 12 are read.
fn read_next<R: Read>(reader: &mut R, bytes: &mut [u8]) -> io::Result<usize>
    requires { long_width ≡ length bytes.old }
    ensures width { IfOk result (λ n. n ≤ record_width (take n bytes.new)) }
    ensures bytes { IfOk result (λ n. Consumes (R.remaining reader.old) (R.remaining reader.new) (take n bytes.new)) }
    ensures end { IfOk result (λ n. n < record_width (take n bytes.new) → IsAtEnd (R.remaining reader.new)) }
{
    let read = read_full(reader, &mut bytes[..record::SHORT_WIDTH])?;
    if read < record::SHORT_WIDTH {
        return Ok(read);
    }
    if record::record_width(bytes) == record::SHORT_WIDTH {
        return Ok(read);
    }
    let more = read_full(reader, &mut bytes[read..])?;
    Ok(read + more)
}

// The next record, read into the bytes that are lent for it and played on the area; its text is written at a place.
// Where a read fails, nothing is played.
pub fn play_next<R: Read>(
    reader: &mut R,
    area: &mut [u8],
    progress: Progress,
    bytes: &mut [u8],
    out: &mut [u8],
    at: usize,
) -> io::Result<Turn>
    requires { (long_width ≡ length bytes.old) × (progress.number + 1 < 2 ^ 64) × (at + most_text ≤ length out.old) }
    ensures read { IfOk result (λ turn. turn.read ≤ record_width (take turn.read bytes.new)) }
    ensures next { IfOk result (λ turn. turn.progress ≡ (played progress area.old (records_of (take turn.read bytes.new))).progress) }
    ensures left { IfOk result (λ turn. area.new ≡ (played progress area.old (records_of (take turn.read bytes.new))).area) }
    ensures text { IfOk result (λ turn. Wrote out.old at (played progress area.old (records_of (take turn.read bytes.new))).text out.new turn.end) }
    ensures bytes { IfOk result (λ turn. Consumes (R.remaining reader.old) (R.remaining reader.new) (take turn.read bytes.new)) }
    ensures end { IfOk result (λ turn. turn.read < record_width (take turn.read bytes.new) → IsAtEnd (R.remaining reader.new)) }
    ensures failed { OnErr result ((area.new ≡ area.old) × (out.new ≡ out.old)) }
{
    let read = read_next(reader, bytes)?;
    if read == 0 {
        return Ok(Turn {
            read,
            progress,
            end: at,
        });
    }
    let step = record::play_one(area, progress, &bytes[..read], out, at);
    Ok(Turn {
        read,
        progress: step.progress,
        end: step.end,
    })
}

// The text up to a place is written if less than a record's text is free after it, and the next text then goes to the front. The answer is its place.
fn make_room<W: Write>(writer: &mut W, out: &[u8], end: usize) -> io::Result<usize>
    requires { end ≤ length out.now }
    ensures place { IfOk result (λ at. at ≡ cond (ltb (length out.now - end) most_text) 0 end) }
    ensures text { IfOk result (λ at. Appends (W.contents writer.old) (W.contents writer.new) (take (end - at) out.now)) }
{
    if out.len() - end < record::MOST_TEXT {
        writer.write_all(&out[..end])?;
        return Ok(0);
    }
    Ok(end)
}

// `started` says whether a start counts as accepted on the area before. Where a read fails, what the records before it print is still written.
// Of a reader that names its bytes, as one over memory does, all are played, and a writer that names its bytes gets their text.
// A proved loop has to end, and nothing says that an input does: the records are counted up to a number that no run reaches.
pub fn play_input<R: Read, W: Write>(
    reader: &mut R,
    writer: &mut W,
    area: &mut [u8],
    started: bool,
) -> io::Result<()>
    ensures left { LeftBySome started area.old area.new }
    ensures whole { OnOk result (IfSome (R.remaining reader.old) (λ input. length input < most_records → area.new ≡ (played (first_from started) area.old (records_of input)).area)) }
    ensures printed { OnOk result (IfSome (R.remaining reader.old) (λ input. length input < most_records → Appends (W.contents writer.old) (W.contents writer.new) (printed_from started area.old input))) }
{
    // Room for the text of some records.
    let mut out = [0; 65536];
    let mut bytes = [0; record::LONG_WIDTH];
    let mut progress = Progress {
        started,
        ..record::first_progress()
    };
    let head = record::put_header(&mut out);
    writer.write_all(&out[..head])?;
    let mut at = 0;
    for _ in 0..576460752303423488u64 {
        let turn = match play_next(reader, area, progress, &mut bytes, &mut out, at) {
            Ok(turn) => turn,
            Err(e) => {
                writer.write_all(&out[..at])?;
                return Err(e);
            }
        };
        // Nothing follows where the input has ended, or after a bad record.
        if turn.read == 0 || turn.progress.over {
            writer.write_all(&out[..turn.end])?;
            return Ok(());
        }
        at = make_room(writer, &out, turn.end)?;
        progress = turn.progress;
    }
    writer.write_all(&out[..at])?;
    Ok(())
}

// The player: standard input, on an area that is not started.
pub fn play_standard_input(rt: &(impl Input + Print)) -> io::Result<()> {
    let mut area = [0; 65536];
    let mut reader = rt.reader();
    let mut writer = io::writer(rt);
    play_input(&mut reader, &mut writer, &mut area, false)
}

#[cfg(test)]
mod tests {
    use super::*;

    // Session S up to the third record.
    const RECORDS: [u8; 36] = [
        0xc3, 0x5a, 0x00, 0x00, 0x00, 0x00, 0x00, 0x01, 0x00, 0x00, 0x00, 0x01, 0xc3, 0x5a, 0x01,
        0x01, 0x00, 0x00, 0x00, 0x00, 0x00, 0x00, 0x00, 0x64, 0xc3, 0x5a, 0x02, 0x01, 0x00, 0x01,
        0x04, 0x00, 0x00, 0x00, 0x00, 0x00,
    ];

    // Gives a byte at a time, each after an interruption, and fails at a place.
    #[derive(Drop)]
    struct Failing {
        at: usize,
        end: usize,
        interrupts: bool,
    }

    impl Read for Failing {
        fn read(&mut self, buf: &mut [u8]) -> io::Result<usize> {
            self.interrupts = !self.interrupts;
            if self.interrupts {
                return Err(io::Error::from(ErrorKind::Interrupted));
            }
            if self.at >= self.end {
                return Err(io::Error::from(ErrorKind::TimedOut));
            }
            if self.at >= RECORDS.len() || buf.is_empty() {
                return Ok(0);
            }
            buf[0] = RECORDS[self.at];
            self.at += 1;
            Ok(1)
        }
    }

    // The reader fails in the third record: the answer is its error, and the lines of the two before it are written.
    #[test]
    fn failed_read(rt: HostRuntime) {
        let mut area = [0; 65536];
        let mut writer = Vec::new(rt.alloc());
        let mut reader = Failing {
            at: 0,
            end: 30,
            interrupts: false,
        };
        match play_input(&mut reader, &mut writer, &mut area, false) {
            Ok(()) => assert!(rt; false, "the error is lost"),
            Err(e) => assert!(rt; e.kind() == ErrorKind::TimedOut, "another error"),
        }
        let lines = b"call word value | slot back\n1 started 0 | - -\n2 begun 0 | - -\n";
        assert!(rt; writer.as_slice() == lines.as_slice(), "other lines");
    }
}
