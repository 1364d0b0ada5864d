// The player's records and lines, and the playing of records on an area.
#![tactic(auto)]

ghost use Rattle.std.specs.Prelude.{◌≡◌, ◌+◌, ◌*◌, ◌^◌, ◌<◌, ◌≤◌, [], ◌∷◌, length};
ghost use Rattle.words.specs.Bytes.{Wrote};
ghost use Rattle.record.specs.Record.{field, of_kind, record_width, has_mark, record_of};
ghost use Rattle.sabre.specs.Lent.{status, answer_numbers};
ghost use Rattle.record.specs.Play.{admitted, answer_to, area_with, list_with, next_progress, played_one, first_progress};
ghost use Rattle.record.specs.Text.{digits, decimal, word_text, or_dash, head_text, tail_text, line_of, fill_numbers, fill_line, fill_lines, most_text, header};
ghost use Rattle.record.specs.Inner.Put.{Put};
ghost use Rattle.record.specs.Inner.Room.{room_of};

use model::Call;

// A run's progress: whether a start was accepted, whether it is over, and the next record's number.
#[derive(Clone, Copy)]
pub struct Progress {
    pub started: bool,
    pub over: bool,
    pub number: u64,
}

impl Progress {
    // Where a run begins.
    pub const FIRST: Progress = Progress {
        started: false,
        over: false,
        number: 1,
    };
}

// A run's progress, and the place past the text that was written.
#[derive(Clone, Copy)]
pub struct Step {
    pub progress: Progress,
    pub end: usize,
}

// How many bytes a record has that begins with the mark C3 5A.
pub const SHORT_WIDTH: usize = 12;

// How many bytes a record has that begins with the mark C3 5B; none has more.
pub const LONG_WIDTH: usize = 16;

// The most bytes of a record's text.
pub const MOST_TEXT: usize = 3135;

// How many bytes the list has that a tick is lent.
const LIST_LENGTH: usize = 256;

// The number in up to eight bytes from a place on, the most significant byte first.
#[tactic(auto, unfolding(crate::specs::Record::field, crate::specs::Record::big_endian))]
fn number_at(bytes: &[u8], at: usize, n: usize) -> u64
    requires { (n ≤ 8) × (at + n ≤ length bytes.now) }
    ensures { (result ≡ field bytes.now at n) × (result < 256 ^ n) }
{
    // `fold` would ask a clause of each call of its closure.
    let mut x = 0;
    for &b in &bytes[at..at + n] {
        x = x * 256 + u64::from(b);
    }
    x
}

// The call that a record names, which is bad where it names none.
#[tactic(auto, unfolding(crate::specs::Record::of_kind, crate::specs::Record::kinds))]
fn call_of(kind: u64, level: u32, number: u32, mode: u32, page: u32, value: u64) -> Option<Call>
    ensures { result ≡ of_kind kind level number mode page value }
{
    match kind {
        0 => Some(Call::Start {
            slots: page,
            delay: value,
        }),
        1 => Some(Call::Begin {
            level,
            number,
            deadline: value,
        }),
        2 => Some(Call::Request {
            level,
            number,
            page,
            mode,
        }),
        3 => Some(Call::Unpin {
            level,
            number,
            page,
        }),
        4 => Some(Call::End { level, number }),
        6 => Some(Call::Tick { room: LIST_LENGTH }),
        7 => Some(Call::Look { level, number }),
        8 => Some(Call::View { level, page }),
        9 => Some(Call::Count { level }),
        10 => Some(Call::Borders {
            first: page,
            second: (value / 65536 % 65536) as u32,
            third: (value % 65536) as u32,
        }),
        _ => None,
    }
}

// How many bytes the record has that some bytes begin.
#[tactic(auto, unfolding(crate::specs::Record::record_width))]
pub fn record_width(bytes: &[u8]) -> usize
    requires { 2 ≤ length bytes.now }
    ensures { result ≡ record_width bytes.now }
{
    if number_at(bytes, 0, 2) == 0xC35B {
        LONG_WIDTH
    } else {
        SHORT_WIDTH
    }
}

#[tactic(auto, unfolding(crate::specs::Record::has_mark))]
fn has_mark(bytes: &[u8]) -> bool
    requires { 2 ≤ length bytes.now }
    ensures { result ≡ has_mark bytes.now }
{
    matches!(number_at(bytes, 0, 2), 0xC35A | 0xC35B)
}

// The record in some bytes: bad if they are not as many as the record has, or the mark is another, or the kind.
#[tactic(auto, using(crate::proofs::RecordLaws::widths), unfolding(crate::specs::Record::record_of, crate::specs::Record::is_whole))]
pub fn read_record(bytes: &[u8]) -> Option<Call>
    ensures { result ≡ record_of bytes.now }
{
    if bytes.len() < SHORT_WIDTH {
        return None;
    }
    let width = record_width(bytes);
    if bytes.len() != width || !has_mark(bytes) {
        return None;
    }
    let kind = number_at(bytes, 2, 1);
    let level = number_at(bytes, 3, 1) as u32;
    let number = number_at(bytes, 4, 1) as u32;
    let mode = number_at(bytes, 5, 1) as u32;
    let page = number_at(bytes, 6, 2) as u32;
    let value = number_at(bytes, 8, width - 8);
    call_of(kind, level, number, mode, page, value)
}

// The words in the order of their numbers.
const WORDS: [&[u8]; 21] = [
    b"refused",
    b"started",
    b"begun",
    b"ready",
    b"fetch",
    b"wait",
    b"unpinned",
    b"ended",
    b"clock",
    b"none",
    b"idle",
    b"late",
    b"taken",
    b"unseen",
    b"active",
    b"read",
    b"write",
    b"dormant",
    b"open",
    b"borders",
    b"fill",
];

#[tactic(auto, unfolding(crate::specs::Text::words))]
fn word_text(word: u64) -> &'static [u8]
    ensures { result.now ≡ word_text word }
{
    let n = word as usize;
    if n < WORDS.len() { WORDS[n] } else { b"" }
}

// What is written on, and the place past what was written.
#[derive(Drop)]
struct Sheet<'a> {
    out: &'a mut [u8],
    end: usize,
}

impl Sheet<'_> {
    fn byte(&mut self, b: u8)
        requires { self.old.end < length self.old.out.now }
        ensures { Put self.old (b ∷ []) self.new }
    {
        self.out[self.end] = b;
        self.end += 1;
    }

    fn text(&mut self, text: &[u8])
        requires { self.old.end + length text.now ≤ length self.old.out.now }
        ensures { Put self.old text.now self.new }
    {
        let end = self.end + text.len();
        self.out[self.end..end].copy_from_slice(text);
        self.end = end;
    }

    // A number's last digits, at most so many.
    #[tactic(auto, using(crate::proofs::TextLaws::digits_most))]
    fn digits(&mut self, n: u64, most: usize)
        requires { self.old.end + most ≤ length self.old.out.now }
        ensures { Put self.old (digits most n) self.new }
    {
        if most == 0 {
            return;
        }
        if n >= 10 {
            self.digits(n / 10, most - 1);
        }
        self.byte((48 + n % 10) as u8);
    }

    fn number(&mut self, n: u64)
        requires { self.old.end + 20 ≤ length self.old.out.now }
        ensures { Put self.old (decimal n) self.new }
    {
        self.digits(n, 20);
    }

    // A number told as that number plus one, `-` for 0.
    fn or_dash(&mut self, told: u64)
        requires { self.old.end + 20 ≤ length self.old.out.now }
        ensures { Put self.old (or_dash told) self.new }
    {
        if told == 0 {
            self.byte(b'-');
        } else {
            self.number(told - 1);
        }
    }

    #[tactic(auto, using(crate::proofs::TextLaws::digits_most, crate::proofs::TextLaws::word_most))]
    fn head(&mut self, number: u64, word: u64, value: u64)
        requires { self.old.end + 50 ≤ length self.old.out.now }
        ensures { Put self.old (head_text number word value) self.new }
    {
        self.number(number);
        self.byte(b' ');
        self.text(word_text(word));
        self.byte(b' ');
        self.number(value);
    }

    #[tactic(auto, using(crate::proofs::TextLaws::dash_most))]
    fn tail(&mut self, slot: u64, back: u64)
        requires { self.old.end + 45 ≤ length self.old.out.now }
        ensures { Put self.old (tail_text slot back) self.new }
    {
        self.text(b" | ");
        self.or_dash(slot);
        self.byte(b' ');
        self.or_dash(back);
        self.byte(b'\n');
    }

    #[tactic(auto, using(crate::proofs::TextLaws::head_most))]
    fn line(&mut self, number: u64, answer: [u64; 4])
        requires { self.old.end + 95 ≤ length self.old.out.now }
        ensures { Put self.old (line_of number answer) self.new }
    {
        let [word, value, slot, back] = answer;
        self.head(number, word, value);
        self.tail(slot, back);
    }

    // The line of an entry of a tick's list, none where its flag is 0.
    #[tactic(auto, unfolding(crate::specs::Text::fill_line))]
    fn fill(&mut self, number: u64, list: &[u8], i: usize)
        requires { (self.old.end + 95 ≤ length self.old.out.now) × (i * 8 + 8 ≤ length list.now) }
        ensures { Put self.old (fill_line number list.now i) self.new }
    {
        if number_at(list, i * 8 + 3, 1) != 0 {
            self.line(number, fill_numbers(list, i * 8));
        }
    }

    fn fills(&mut self, number: u64, list: &[u8])
        requires { (self.old.end + 32 * 95 ≤ length self.old.out.now) × (32 * 8 ≤ length list.now) }
        ensures { Put self.old (fill_lines number list.now) self.new }
    {
        // An entry is named by its number, as the definitions name it.
        for i in 0..32 {
            self.fill(number, list, i);
        }
    }
}

// The line of a record for its answer's four numbers, as the C interface has them: word, value, slot + 1 or 0, page to write back + 1 or 0.
// A line has at most 95 bytes.
pub fn put_line(out: &mut [u8], at: usize, number: u64, answer: [u64; 4]) -> usize
    requires { at + 95 ≤ length out.old }
    ensures { Wrote out.old at (line_of number answer) out.new result }
{
    let mut sheet = Sheet { out, end: at };
    sheet.line(number, answer);
    sheet.end
}

// The numbers of an entry, which stands at a place of a tick's list.
#[tactic(auto, unfolding(crate::specs::Text::fill_numbers))]
fn fill_numbers(list: &[u8], at: usize) -> [u64; 4]
    requires { at + 8 ≤ length list.now }
    ensures { result ≡ fill_numbers list.now at }
{
    let level = number_at(list, at, 1);
    let row = number_at(list, at + 1, 1);
    let slot = number_at(list, at + 2, 1);
    let back = if number_at(list, at + 3, 1) == 2 {
        number_at(list, at + 6, 2) + 1
    } else {
        0
    };
    [20, level * 8 + row, slot + 1, back]
}

fn put_fills(out: &mut [u8], at: usize, number: u64, list: &[u8]) -> usize
    requires { (at + 32 * 95 ≤ length out.old) × (32 * 8 ≤ length list.now) }
    ensures { Wrote out.old at (fill_lines number list.now) out.new result }
{
    let mut sheet = Sheet { out, end: at };
    sheet.fills(number, list);
    sheet.end
}

#[tactic(auto, unfolding(crate::specs::Text::header))]
pub fn put_header(out: &mut [u8]) -> usize
    requires { 28 ≤ length out.old }
    ensures { Wrote out.old 0 header out.new result }
{
    let mut sheet = Sheet { out, end: 0 };
    sheet.text(b"call word value | slot back\n");
    sheet.end
}

// Before an accepted start a record of another kind is bad.
#[tactic(auto, unfolding(crate::specs::Play::admitted))]
fn admit(started: bool, input: Option<Call>) -> Option<Call>
    ensures { result ≡ admitted started input }
{
    input.filter(|call| started || matches!(call, Call::Start { .. }))
}

// The call of a record, made on the area; a tick is lent the list. A bad record is refusal 18.
#[tactic(auto, unfolding(crate::specs::Play::answer_to, crate::specs::Play::area_with, crate::specs::Play::list_with, sabre::specs::Lent::status, sabre::specs::Lent::answer_numbers, rules::specs::Answers::word, rules::specs::Answers::value, rules::specs::Answers::slot_told, rules::specs::Answers::back_told))]
fn make_call(area: &mut [u8], list: &mut [u8], input: Option<Call>, answer: &mut [u64; 4]) -> u32
    requires { room_of input ≤ length list.old }
    ensures returned { result ≡ status (answer_to area.old input) }
    ensures told { answer.new ≡ answer_numbers (answer_to area.old input) }
    ensures left { area.new ≡ area_with area.old input }
    ensures listed { list.new ≡ list_with area.old list.old input }
{
    match input {
        // calls::Refusal::Record, told as `answer_to` and the words of an answer have it.
        None => {
            *answer = [0, 18, 0, 0];
            18
        }
        Some(Call::Tick { room }) => sabre::tick(area, list, room, answer),
        Some(call) => sabre::make(area, call, answer),
    }
}

// `Progress::FIRST`, which as a constant has no contract.
#[tactic(auto, unfolding(crate::specs::Play::first_progress))]
pub fn first_progress() -> Progress
    ensures { result ≡ first_progress }
{
    Progress::FIRST
}

// The progress after a record that was answered with a word.
#[tactic(auto, unfolding(crate::specs::Play::next_progress))]
fn next_progress(progress: Progress, input: Option<Call>, word: u64) -> Progress
    requires { progress.number + 1 < 2 ^ 64 }
    ensures { result ≡ next_progress progress input word }
{
    Progress {
        started: progress.started || word != 0,
        over: input.is_none(),
        number: progress.number + 1,
    }
}

// The next record, in the bytes that are its own, played on the area; its text is written at a place.
#[tactic(auto, using(words::proofs::WroteLaws::wrote_none), unfolding(crate::specs::Play::played_one, crate::specs::Play::played_record, sabre::specs::Lent::answer_numbers))]
pub fn play_one(
    area: &mut [u8],
    progress: Progress,
    bytes: &[u8],
    out: &mut [u8],
    at: usize,
) -> Step
    requires { (progress.number + 1 < 2 ^ 64) × (at + most_text ≤ length out.old) }
    ensures next { result.progress ≡ (played_one progress area.old bytes.now).progress }
    ensures left { area.new ≡ (played_one progress area.old bytes.now).area }
    ensures text { Wrote out.old at (played_one progress area.old bytes.now).text out.new result.end }
{
    if progress.over {
        return Step { progress, end: at };
    }
    let number = progress.number;
    let input = admit(progress.started, read_record(bytes));
    let mut list = [0; LIST_LENGTH];
    let mut answer = [0u64; 4];
    make_call(area, &mut list, input, &mut answer);
    let line_end = put_line(out, at, number, answer);
    let end = put_fills(out, line_end, number, &list);
    Step {
        progress: next_progress(progress, input, answer[0]),
        end,
    }
}
