// The exported calls, over the calls on a state by value. This crate and `area` alone write the lent area. `make` reads it as a state, has it tested by
// `sound`, makes the call on the state, and has what it changes written over the area. Look, view and count, which
// change nothing, go by `ask`. A tick, which is lent a list too, goes by `tick`, and a start, which takes any bytes, by `start`: these write the whole of the
// next state.
#![tactic(auto)]

ghost use Rattle.std.specs.Prelude.{◌≡◌, true, false, cond, ◌&&◌, ◌++◌, ◌≤◌, length, drop};
ghost use Rattle.rules.specs.Sound.{sound};
ghost use Rattle.rules.specs.Content.{is_tick, is_reading};
ghost use Rattle.rules.specs.Answers.{cause_word, page_back, slot_told};
ghost use Rattle.model.specs.declared.Answer.TheVariants.{Refused};
ghost use Rattle.model.specs.declared.Call.TheVariants.{Start, Begin, Request, Unpin, End, Tick, Look, View, Count, Borders};
ghost use Rattle.model.specs.Inner.Changed.{changed};
ghost use Rattle.area.specs.Layout.{encoded, decoded, version_in, exact_as};
ghost use Rattle.calls.specs.Inner.Refused.{refusal_number};
ghost use Rattle.layout32.specs.Known.{known};
ghost use Rattle.sabre.specs.Lent.{is_refused, answer_on, area_after, list_after, status, answer_numbers};

use calls::Refusal;
use model::{Answer, Call, Cause, Outcome, Reply, State};

fn cause_word(cause: Cause) -> u64
    ensures { result ≡ cause_word cause }
{
    match cause {
        Cause::Late => 11,
        Cause::Taken => 12,
    }
}

fn back_number(back: Option<u32>) -> u64
    ensures { result ≡ page_back back }
{
    back.map_or(0, |page| u64::from(page) + 1)
}

// The word, the value, and for the server alone slot + 1 and page to write back + 1, 0 if none.
fn answer_numbers(x: Answer) -> [u64; 4]
    requires { slot_told x ≤ 64 }
    ensures { result ≡ answer_numbers x }
{
    match x {
        Answer::Refused(number) => [0, u64::from(number), 0, 0],
        Answer::Started => [1, 0, 0, 0],
        Answer::Begun => [2, 0, 0, 0],
        Answer::Ready { slot, back } => {
            let page = back_number(back);
            [3, 0, slot as u64 + 1, page]
        }
        Answer::Fetch { due, slot, back } => {
            let page = back_number(back);
            [4, due, slot as u64 + 1, page]
        }
        Answer::Wait => [5, 0, 0, 0],
        Answer::Unpinned => [6, 0, 0, 0],
        Answer::Ended => [7, 0, 0, 0],
        Answer::Clock(clock) => [8, clock, 0, 0],
        Answer::RowFree => [9, 0, 0, 0],
        Answer::RowIdle => [10, 0, 0, 0],
        Answer::RowFetching(due) => [4, due, 0, 0],
        Answer::RowWaiting => [5, 0, 0, 0],
        Answer::RowKilled(cause) => {
            let word = cause_word(cause);
            [word, 0, 0, 0]
        }
        Answer::PageUnseen => [13, 0, 0, 0],
        Answer::PageActive(arrival) => [14, arrival, 0, 0],
        Answer::PageRead(arrival) => [15, arrival, 0, 0],
        Answer::PageWrite(arrival) => [16, arrival, 0, 0],
        Answer::PageDormant(arrival) => [17, arrival, 0, 0],
        Answer::Open(count) => [18, count as u64, 0, 0],
        Answer::Bordered => [19, 0, 0, 0],
    }
}

// The answer told, as C reads it: refused where its word is 0, and its value is then the refusal's number. That a slot told is at most 64 is asked, here and
// below, since an Answer is made of any numbers and has no invariant.
fn tell(answer: &mut [u64; 4], x: Answer) -> u32
    requires { slot_told x ≤ 64 }
    ensures { (result ≡ status x) × (answer.new ≡ answer_numbers x) }
{
    let numbers = answer_numbers(x);
    *answer = numbers;
    if numbers[0] == 0 {
        return numbers[1] as u32;
    }
    0
}

fn refuse(answer: &mut [u64; 4], refusal: Refusal) -> u32
    ensures { (result ≡ status (Refused (refusal_number refusal))) × (answer.new ≡ answer_numbers (Refused (refusal_number refusal))) }
{
    tell(answer, Answer::Refused(u32::from(refusal)))
}

// Whether an area is sound, or was in the last 32-bit layout: its bytes are exactly those of the state that it names, its version is known, and that
// state is sound. By value: a call that has lent its state copies it once more to hand it on.
fn is_area_sound(area: &[u8], exact: bool, s: State) -> bool
    requires { 65536 ≤ length area.now }
    ensures { result ≡ exact && known (version_in area.now) s.clock s.rows && sound s }
{
    if exact & layout32::is_known(area::version_of(area), s.clock, s.rows) {
        return sound::is_sound(&s);
    }
    false
}

// The answer told and, where the call is accepted, what it changes written over the area. It and settle are not one function of a closure that writes:
// a writer asks for the area as it is lent, and its clause would be longer than both.
fn finish(area: &mut [u8], answer: &mut [u64; 4], r: Reply) -> u32
    requires { (exact_as (version_in area.old) area.old ≡ true) × (slot_told r.answer ≤ 64) }
    ensures { (result ≡ status r.answer) × (answer.new ≡ answer_numbers r.answer) × (area.new ≡ cond (is_refused r.answer) area.old (encoded (changed (decoded area.old) r.change) ++ drop 65536 area.old)) }
{
    let x = r.answer;
    let n = tell(answer, x);
    if answer[0] == 0 {
        return n;
    }
    let c = r.change;
    area::amend(area, c);
    n
}

// A fresh start on any area of at least 65,536 bytes.
fn start(area: &mut [u8], slots: u32, delay: u64, answer: &mut [u64; 4]) -> u32
    ensures returned { result ≡ status (answer_on area.old (Start slots delay)) }
    ensures told { answer.new ≡ answer_numbers (answer_on area.old (Start slots delay)) }
    ensures left { area.new ≡ area_after area.old (Start slots delay) }
{
    if area.len() < 65536 {
        return refuse(answer, Refusal::Area);
    }
    if let Err(e) = calls::check_start(slots, delay) {
        return refuse(answer, e);
    }
    let s = model::fresh_state(slots as usize, delay);
    area::encode(area, s);
    tell(answer, Answer::Started)
}

// The answer told and, where the call is accepted, the next state written over the area.
fn settle(area: &mut [u8], answer: &mut [u64; 4], o: Outcome) -> u32
    requires { (65536 ≤ length area.old) × (slot_told o.answer ≤ 64) }
    ensures { (result ≡ status o.answer) × (answer.new ≡ answer_numbers o.answer) × (area.new ≡ cond (is_refused o.answer) area.old (encoded o.state ++ drop 65536 area.old)) }
{
    let x = o.answer;
    let n = tell(answer, x);
    let word = answer[0];
    if word == 0 {
        return n;
    }
    let s = o.state;
    area::encode(area, s);
    n
}

// A tick made on an area, with the first bytes of a list. The area is opened here, in make and in ask alike: a function that answers the state in an
// Option took up to 1.4 times as long (area::decode).
pub fn tick(area: &mut [u8], list: &mut [u8], room: usize, answer: &mut [u64; 4]) -> u32
    requires { room ≤ length list.old }
    ensures returned { result ≡ status (answer_on area.old (Tick room)) }
    ensures told { answer.new ≡ answer_numbers (answer_on area.old (Tick room)) }
    ensures left { area.new ≡ area_after area.old (Tick room) }
    ensures listed { list.new ≡ list_after area.old (Tick room) list.old }
{
    if area.len() < 65536 {
        return refuse(answer, Refusal::Area);
    }
    let mut exact = false;
    let s = area::decode(area, &mut exact);
    if is_area_sound(area, exact, s) {
        let o = calls::tick(s, room, list);
        return settle(area, answer, o);
    }
    refuse(answer, Refusal::Area)
}

// A call made on an area, which is not a tick.
pub fn make(area: &mut [u8], c: Call, answer: &mut [u64; 4]) -> u32
    requires { is_tick c ≡ false }
    ensures returned { result ≡ status (answer_on area.old c) }
    ensures told { answer.new ≡ answer_numbers (answer_on area.old c) }
    ensures left { area.new ≡ area_after area.old c }
{
    if let Call::Start { slots, delay } = c {
        return start(area, slots, delay, answer);
    }
    if calls::is_reading(c) {
        return ask(area, c, answer);
    }
    if area.len() < 65536 {
        return refuse(answer, Refusal::Area);
    }
    let mut exact = false;
    let s = area::decode(area, &mut exact);
    if is_area_sound(area, exact, s) {
        let r = calls::make(s, c);
        return finish(area, answer, r);
    }
    refuse(answer, Refusal::Area)
}

// A look, view or count, which leave the area.
fn ask(area: &[u8], c: Call, answer: &mut [u64; 4]) -> u32
    requires { is_reading c ≡ true }
    ensures returned { result ≡ status (answer_on area.now c) }
    ensures told { answer.new ≡ answer_numbers (answer_on area.now c) }
{
    if area.len() < 65536 {
        return refuse(answer, Refusal::Area);
    }
    let mut exact = false;
    let s = area::decode(area, &mut exact);
    if is_area_sound(area, exact, s) {
        let x = calls::ask(s, c);
        return tell(answer, x);
    }
    refuse(answer, Refusal::Area)
}

pub fn sabre_start(area: &mut [u8], slots: u32, delay: u64, answer: &mut [u64; 4]) -> u32
    ensures returned { result ≡ status (answer_on area.old (Start slots delay)) }
    ensures told { answer.new ≡ answer_numbers (answer_on area.old (Start slots delay)) }
    ensures left { area.new ≡ area_after area.old (Start slots delay) }
{
    start(area, slots, delay, answer)
}

pub fn sabre_begin(
    area: &mut [u8],
    level: u32,
    row: u32,
    deadline: u64,
    answer: &mut [u64; 4],
) -> u32
    ensures returned { result ≡ status (answer_on area.old (Begin level row deadline)) }
    ensures told { answer.new ≡ answer_numbers (answer_on area.old (Begin level row deadline)) }
    ensures left { area.new ≡ area_after area.old (Begin level row deadline) }
{
    make(
        area,
        Call::Begin {
            level,
            number: row,
            deadline,
        },
        answer,
    )
}

pub fn sabre_request(
    area: &mut [u8],
    level: u32,
    row: u32,
    page: u32,
    mode: u32,
    answer: &mut [u64; 4],
) -> u32
    ensures returned { result ≡ status (answer_on area.old (Request level row page mode)) }
    ensures told { answer.new ≡ answer_numbers (answer_on area.old (Request level row page mode)) }
    ensures left { area.new ≡ area_after area.old (Request level row page mode) }
{
    make(
        area,
        Call::Request {
            level,
            number: row,
            page,
            mode,
        },
        answer,
    )
}

pub fn sabre_unpin(area: &mut [u8], level: u32, row: u32, page: u32, answer: &mut [u64; 4]) -> u32
    ensures returned { result ≡ status (answer_on area.old (Unpin level row page)) }
    ensures told { answer.new ≡ answer_numbers (answer_on area.old (Unpin level row page)) }
    ensures left { area.new ≡ area_after area.old (Unpin level row page) }
{
    make(
        area,
        Call::Unpin {
            level,
            number: row,
            page,
        },
        answer,
    )
}

pub fn sabre_end(area: &mut [u8], level: u32, row: u32, answer: &mut [u64; 4]) -> u32
    ensures returned { result ≡ status (answer_on area.old (End level row)) }
    ensures told { answer.new ≡ answer_numbers (answer_on area.old (End level row)) }
    ensures left { area.new ≡ area_after area.old (End level row) }
{
    make(area, Call::End { level, number: row }, answer)
}

pub fn sabre_tick(area: &mut [u8], list: &mut [u8], answer: &mut [u64; 4]) -> u32
    ensures returned { result ≡ status (answer_on area.old (Tick (length list.old))) }
    ensures told { answer.new ≡ answer_numbers (answer_on area.old (Tick (length list.old))) }
    ensures left { area.new ≡ area_after area.old (Tick (length list.old)) }
    ensures listed { list.new ≡ list_after area.old (Tick (length list.old)) list.old }
{
    let room = list.len();
    tick(area, list, room, answer)
}

pub fn sabre_look(area: &[u8], level: u32, row: u32, answer: &mut [u64; 4]) -> u32
    ensures returned { result ≡ status (answer_on area.now (Look level row)) }
    ensures told { answer.new ≡ answer_numbers (answer_on area.now (Look level row)) }
{
    ask(area, Call::Look { level, number: row }, answer)
}

pub fn sabre_view(area: &[u8], level: u32, page: u32, answer: &mut [u64; 4]) -> u32
    ensures returned { result ≡ status (answer_on area.now (View level page)) }
    ensures told { answer.new ≡ answer_numbers (answer_on area.now (View level page)) }
{
    ask(area, Call::View { level, page }, answer)
}

pub fn sabre_count(area: &[u8], level: u32, answer: &mut [u64; 4]) -> u32
    ensures returned { result ≡ status (answer_on area.now (Count level)) }
    ensures told { answer.new ≡ answer_numbers (answer_on area.now (Count level)) }
{
    ask(area, Call::Count { level }, answer)
}

pub fn sabre_borders(
    area: &mut [u8],
    first: u32,
    second: u32,
    third: u32,
    answer: &mut [u64; 4],
) -> u32
    ensures returned { result ≡ status (answer_on area.old (Borders first second third)) }
    ensures told { answer.new ≡ answer_numbers (answer_on area.old (Borders first second third)) }
    ensures left { area.new ≡ area_after area.old (Borders first second third) }
{
    make(
        area,
        Call::Borders {
            first,
            second,
            third,
        },
        answer,
    )
}
