// A state as the bytes of a lent area, and back: docs/LAYOUT.md.
#![tactic(auto)]

ghost use Rattle.std.specs.Prelude.{◌≡◌, refl, true, cond, ◌&&◌, List, [], ◌∷◌, ◌++◌, ℕ, ◌+◌, ◌*◌, ◌<◌, ◌≤◌, length, get_or, drop, replicate};
ghost use Rattle.seq.specs.Below.{all_below};
ghost use Rattle.seq.specs.Each.{each};
ghost use Rattle.words.specs.Bytes.{word_at, has_words, spliced, joined, word_bytes};
ghost use Rattle.model.specs.Parties.{mode_of};
ghost use Rattle.model.specs.Inner.Changed.{marked, changed};
ghost use Rattle.area.specs.Layout.{low, condition_of, pin_numbered, content_of, row_from, slot_from, holding_from, borders_from, row_words, slot_words, holding_words, header_words, decoded, encoded, version_in, exact_as};
ghost use Rattle.area.specs.Inner.Writes.{places_put, order_put, header_put, setting_put, row_dropped, rows_dropped};

use model::{
    Borders, Cause, Change, Condition, Content, Holding, Mode, Pin, Row, Setting, Slot, State,
};

// The version of the layout that is written.
const VERSION: u64 = 4;

// A part of the state that stands in the area as words, from a place on.
trait Stored: Copy {
    const BYTES: usize;

    ghost BYTES: { ℕ };

    ghost words_of: { Self → List ℕ };

    ghost from: { List ℕ → ℕ → Self };

    fn put(&self, a: &mut [u8], at: usize)
        requires { at + BYTES ≤ length a.old }
        ensures { a.new ≡ spliced a.old at (word_bytes (words_of self.now)) };

    fn read(a: &[u8], at: usize) -> Self
        requires { at + BYTES ≤ length a.now }
        ensures { result ≡ from a.now at };

    // The bytes at the place where it was read are exactly its own.
    fn is_exact(&self, a: &[u8], at: usize) -> bool
        requires room { at + BYTES ≤ length a.now }
        requires read { self.now ≡ from a.now at }
        ensures { result ≡ has_words a.now at (words_of self.now) };

    ghost wide: { (x : Self) → length (words_of x) * 8 ≡ BYTES };
}

// A place in a begin order is the whole of its word.
impl Stored for usize {
    const BYTES: usize = 8;

    ghost BYTES = { 8 };

    ghost words_of = { λ x. x ∷ [] };

    ghost from = { word_at };

    ghost wide = { λ x. refl };

    #[tactic(auto, using(words::proofs::SpliceLaws::word_alone))]
    fn put(&self, a: &mut [u8], at: usize) {
        words::put_word(a, at, *self as u64);
    }

    fn read(a: &[u8], at: usize) -> usize {
        words::word(a, at) as usize
    }

    #[tactic(auto, using(crate::proofs::Elements::place_exact))]
    fn is_exact(&self, _a: &[u8], _at: usize) -> bool {
        true
    }
}

impl Stored for Row {
    const BYTES: usize = 64;

    ghost BYTES = { 64 };

    ghost words_of = { row_words };

    ghost from = { row_from };

    ghost wide = { λ x. unfold row_words in refl };

    fn put(&self, a: &mut [u8], at: usize) {
        words::put_words(a, at, &row_words(*self));
    }

    #[tactic(auto, unfolding(crate::specs::Layout::row_from))]
    fn read(a: &[u8], at: usize) -> Row {
        Row {
            condition: condition_of(
                words::word(a, at),
                words::word(a, at + 8),
                words::word(a, at + 16),
            ),
            deadline: words::word(a, at + 24),
        }
    }

    fn is_exact(&self, a: &[u8], at: usize) -> bool {
        words::has_words(a, at, &row_words(*self))
    }
}

impl Stored for Slot {
    const BYTES: usize = 64;

    ghost BYTES = { 64 };

    ghost words_of = { slot_words };

    ghost from = { slot_from };

    ghost wide = { λ x. unfold slot_words in refl };

    fn put(&self, a: &mut [u8], at: usize) {
        words::put_words(a, at, &slot_words(*self));
    }

    #[tactic(auto, unfolding(crate::specs::Layout::slot_from))]
    fn read(a: &[u8], at: usize) -> Slot {
        Slot {
            content: content_of(
                words::word(a, at),
                words::word(a, at + 8),
                words::word(a, at + 16),
                words::word(a, at + 24),
                words::word(a, at + 32),
            ),
            touch: words::word(a, at + 40),
        }
    }

    fn is_exact(&self, a: &[u8], at: usize) -> bool {
        words::has_words(a, at, &slot_words(*self))
    }
}

impl Stored for Holding {
    const BYTES: usize = 24;

    ghost BYTES = { 24 };

    ghost words_of = { holding_words };

    ghost from = { holding_from };

    ghost wide = { λ x. unfold holding_words in refl };

    fn put(&self, a: &mut [u8], at: usize) {
        words::put_words(a, at, &holding_words(*self));
    }

    #[tactic(auto, unfolding(crate::specs::Layout::holding_from))]
    fn read(a: &[u8], at: usize) -> Holding {
        Holding {
            pin: pin_numbered(words::word(a, at)),
            arrival: words::word(a, at + 8),
            touch: words::word(a, at + 16),
        }
    }

    // The first word has to be the number of a pin; the others may be any.
    #[tactic(auto, using(crate::proofs::Elements::pin_exact))]
    fn is_exact(&self, a: &[u8], at: usize) -> bool {
        words::word(a, at) <= 3
    }
}

// What stands from a place on, read over a list; the answer is whether the bytes there are exactly its own.
fn read_all<T: Stored>(xs: &mut [T], a: &[u8], base: usize) -> bool
    requires { base + length xs.old * T.BYTES ≤ length a.now }
    ensures read { xs.new ≡ each (λ i _. T.from a.now (base + i * T.BYTES)) xs.old }
    ensures exact { result ≡ all_below (length xs.old) (λ i. has_words a.now (base + i * T.BYTES) (T.words_of (T.from a.now (base + i * T.BYTES)))) }
{
    let mut exact = true;
    for (i, x) in xs.iter_mut().enumerate() {
        let at = base + i * T::BYTES;
        let y = T::read(a, at);
        exact &= y.is_exact(a, at);
        *x = y;
    }
    exact
}

// A list written from a place on.
fn put_all<T: Stored>(a: &mut [u8], base: usize, xs: &[T])
    requires { base + length xs.now * T.BYTES ≤ length a.old }
    ensures { (d : T) → a.new ≡ spliced a.old base (joined (length xs.now) (λ i. word_bytes (T.words_of (get_or xs.now i d)))) }
{
    for (i, x) in xs.iter().enumerate() {
        x.put(a, base + i * T::BYTES);
    }
}

// The lower four bytes of a word: `as` alone has to lose nothing.
fn low(w: u64) -> u32
    ensures { result ≡ low w }
{
    (w % 4294967296) as u32
}

// What numbers mean. These are functions and no impls of From, since the types are another crate's.
fn mode_of(mode: u64) -> Mode
    ensures { result ≡ mode_of mode }
{
    if mode == 0 { Mode::Read } else { Mode::Write }
}

#[tactic(auto, unfolding(crate::specs::Layout::condition_of))]
fn condition_of(number: u64, what: u64, mode: u64) -> Condition
    ensures { result ≡ condition_of number what mode }
{
    match number {
        0 => Condition::Free,
        1 => Condition::Idle,
        2 => Condition::Fetching(what),
        3 => Condition::Waiting {
            page: low(what),
            mode: mode_of(mode),
        },
        4 => Condition::Killed(Cause::Late),
        _ => Condition::Killed(Cause::Taken),
    }
}

#[tactic(auto, unfolding(crate::specs::Layout::pin_numbered))]
fn pin_numbered(number: u64) -> Pin
    ensures { result ≡ pin_numbered number }
{
    match number {
        0 => Pin::Absent,
        1 => Pin::Unpinned,
        2 => Pin::Read,
        _ => Pin::Write,
    }
}

#[tactic(auto, unfolding(crate::specs::Layout::content_of))]
fn content_of(filled: u64, page: u64, arrival: u64, dirty: u64, lowest: u64) -> Content
    ensures { result ≡ content_of filled page arrival dirty lowest }
{
    if filled == 0 {
        Content::Empty
    } else {
        Content::Filled {
            page: low(page),
            arrival,
            dirty: dirty != 0,
            lowest: lowest as usize,
        }
    }
}

// The words of a row, a slot, a holding and the header.
#[tactic(auto, unfolding(crate::specs::Layout::row_words))]
fn row_words(x: Row) -> [u64; 8]
    ensures { result ≡ row_words x }
{
    let (number, what, mode) = match x.condition {
        Condition::Free => (0, 0, 0),
        Condition::Idle => (1, 0, 0),
        Condition::Fetching(due) => (2, due, 0),
        Condition::Waiting { page, mode } => (3, u64::from(page), model::mode_number(mode) as u64),
        Condition::Killed(Cause::Late) => (4, 0, 0),
        Condition::Killed(Cause::Taken) => (5, 0, 0),
    };
    [number, what, mode, x.deadline, 0, 0, 0, 0]
}

#[tactic(auto, unfolding(crate::specs::Layout::slot_words))]
fn slot_words(x: Slot) -> [u64; 8]
    ensures { result ≡ slot_words x }
{
    match x.content {
        Content::Empty => [0, 0, 0, 0, 0, x.touch, 0, 0],
        Content::Filled {
            page,
            arrival,
            dirty,
            lowest,
        } => [
            1,
            u64::from(page),
            arrival,
            u64::from(dirty),
            lowest as u64,
            x.touch,
            0,
            0,
        ],
    }
}

#[tactic(auto, unfolding(crate::specs::Layout::holding_words))]
fn holding_words(h: Holding) -> [u64; 3]
    ensures { result ≡ holding_words h }
{
    [model::pin_strength(h.pin) as u64, h.arrival, h.touch]
}

// The mark SABREBUF, a version and the numbers of the whole state.
#[tactic(auto, unfolding(crate::specs::Layout::header_words))]
fn header_words(version: u64, s: &State) -> [u64; 9]
    ensures { result ≡ header_words version s.now }
{
    [
        5068029821175611731,
        version,
        s.size as u64,
        s.delay,
        s.clock,
        u64::from(s.borders.first),
        u64::from(s.borders.second),
        u64::from(s.borders.third),
        u64::from(s.begun),
    ]
}

// The version that an area of at least 65,536 bytes names.
pub fn version_of(a: &[u8]) -> u64
    requires { 65536 ≤ length a.now }
    ensures { result ≡ version_in a.now }
{
    words::word(a, 8)
}

// An area is a slice here too, and no `&[u8; 65536]`: the definitions take the whole area, and each bound of 65,536 bytes is found without an answer.
fn get_borders(a: &[u8]) -> Borders
    requires { 65536 ≤ length a.now }
    ensures { result ≡ borders_from a.now }
{
    Borders {
        first: low(words::word(a, 40)),
        second: low(words::word(a, 48)),
        third: low(words::word(a, 56)),
    }
}

// The mark, the numbers of the whole state and the unused words are those of the layout, whatever the version.
fn is_frame(a: &[u8], s: &State) -> bool
    requires { 65536 ≤ length a.now }
    ensures { result ≡ has_words a.now 0 (header_words (version_in a.now) s.now) && (has_words a.now 328 (replicate 23 0) && has_words a.now 55808 (replicate 1216 0)) }
{
    words::has_words(a, 0, &header_words(version_of(a), s))
        && (words::has_zeros(a, 328, 23) && words::has_zeros(a, 55808, 1216))
}

// The state that an area of at least 65,536 bytes names, read over a fresh state, and whether its bytes are exactly that state's, with the version that
// it names. The flag stands beside the state, which it gives whatever the flag is: with a State in an Option calls took up to
// 1.4 times as long, over the limit of 2.5 times plain Rust.
pub fn decode(a: &[u8], whole: &mut bool) -> State
    requires { 65536 ≤ length a.now }
    ensures { (result ≡ decoded a.now) × (whole.new ≡ exact_as (version_in a.now) a.now) }
{
    let mut s = model::fresh_state(words::word(a, 16) as usize, words::word(a, 24));
    s.clock = words::word(a, 32);
    s.borders = get_borders(a);
    s.begun = words::word(a, 64) != 0;
    let places = read_all(&mut s.places, a, 72);
    let rows = read_all(&mut s.rows, a, 512);
    let slots = read_all(&mut s.slots, a, 2560);
    let holdings = read_all(&mut s.holdings, a, 6656);
    *whole = is_frame(a, &s) & places & rows & slots & holdings;
    s
}

// The state written over the first 65,536 bytes; the others are left.
pub fn encode(a: &mut [u8], s: State)
    requires { 65536 ≤ length a.old }
    ensures { a.new ≡ encoded s ++ drop 65536 a.old }
{
    words::put_words(a, 0, &header_words(VERSION, &s));
    put_all(a, 72, &s.places);
    words::put_zeros(a, 328, 23);
    put_all(a, 512, &s.rows);
    put_all(a, 2560, &s.slots);
    put_all(a, 6656, &s.holdings);
    words::put_zeros(a, 55808, 1216);
}

// The holdings of a row go from all 64 slots, by the numbers of the slots: they lie 768 bytes apart. As model::drop_row, but over
// bytes: amend writes no state.
fn drop_row(a: &mut [u8], row: usize)
    requires { (65536 ≤ length a.old) × (row < 32) }
    ensures { a.new ≡ row_dropped row 64 a.old }
{
    for i in 0..64 {
        words::put_zeros(a, 6656 + (i * 32 + row) * 24, 3);
    }
}

// The holdings of the marked rows go.
fn drop_rows(a: &mut [u8], gone: &[bool; 32])
    requires { 65536 ≤ length a.old }
    ensures { a.new ≡ rows_dropped (marked gone.now) 32 a.old }
{
    for (row, goes) in gone.iter().enumerate() {
        if *goes {
            drop_row(a, row);
        }
    }
}

// The places in the begin orders as a call leaves them, written over those that the area names.
fn change_places(a: &mut [u8], x: Setting)
    requires { 65536 ≤ length a.old }
    ensures { a.new ≡ places_put x a.old }
{
    let mut old = [0; 32];
    read_all(&mut old, a, 72);
    let new = model::changed_places(x, old);
    put_all(a, 72, &new);
}

// The begin order of a level changes where a row begins or ends.
#[tactic(auto, unfolding(crate::specs::Inner::Writes::order_put))]
fn put_order(a: &mut [u8], x: Setting)
    requires { 65536 ≤ length a.old }
    ensures { a.new ≡ order_put x a.old }
{
    match x {
        Setting::Begun { .. } | Setting::Ended { .. } => change_places(a, x),
        Setting::Left | Setting::Set { .. } => {}
    }
}

// The version, and the clock that a call leaves.
#[tactic(auto, using(words::proofs::SpliceLaws::word_alone), unfolding(crate::specs::Inner::Writes::header_put))]
fn put_header(a: &mut [u8], clock: u64)
    requires { 65536 ≤ length a.old }
    ensures { a.new ≡ header_put clock a.old }
{
    words::put_word(a, 8, VERSION);
    words::put_word(a, 32, clock);
}

// What a call makes of the borders and of whether a row has begun, written over the header.
#[tactic(auto, using(words::proofs::SpliceLaws::word_alone), unfolding(crate::specs::Inner::Writes::setting_put))]
fn put_setting(a: &mut [u8], x: Setting)
    requires { 65536 ≤ length a.old }
    ensures { a.new ≡ setting_put x a.old }
{
    match x {
        Setting::Begun { .. } => words::put_word(a, 64, 1),
        Setting::Set {
            first,
            second,
            third,
        } => words::put_words(
            a,
            40,
            &[u64::from(first), u64::from(second), u64::from(third)],
        ),
        Setting::Left | Setting::Ended { .. } => {}
    }
}

// What a call changes, written over the bytes of the state that it changes, and the version; the others are left.
#[tactic(auto, using(crate::proofs::RoundTrip::named_long))]
pub fn amend(a: &mut [u8], c: Change)
    requires { exact_as (version_in a.old) a.old ≡ true }
    ensures { a.new ≡ encoded (changed (decoded a.old) c) ++ drop 65536 a.old }
{
    put_order(a, c.setting);
    put_header(a, c.clock);
    put_setting(a, c.setting);
    put_all(a, 512, &c.rows);
    put_all(a, 2560, &c.slots);
    drop_rows(a, &c.gone);
    if c.slot < 64 {
        put_all(a, 6656 + c.slot * 768, &c.held);
    }
}
