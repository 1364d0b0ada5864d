// The test whether a state is sound: document 01, "State", and document 02, T-01, T-02 and T-06.
#![tactic(auto)]

ghost use Rattle.std.specs.Prelude.{◌≡◌, ◌&&◌, ◌||◌, not, ◌+◌, ◌*◌, ◌<◌, ◌≤◌, leb, eqb, get_or};
ghost use Rattle.seq.specs.Below.{all_below, count_below};
ghost use Rattle.model.specs.Parties.{class_of};
ghost use Rattle.model.specs.State.{free_row, empty_slot, row_at, slot_at, holding_at};
ghost use Rattle.model.specs.Words.{is_free, is_filled, is_held, page_in};
ghost use Rattle.model.specs.Changes.{rows_not_free};
ghost use Rattle.rules.specs.Sound.{pin_allowed, arrived, awaits, sound_slot, sound_row, sound_holding, sound_pins, sound_place, same_place, sound_order, sound_borders, sound};
ghost use Rattle.sound.specs.Inner.Tests.{lengths_test, in_range, place_in, no_pages, place_taken, pin_weight};

use model::{Condition, Content, Holding, Mode, Pin, Row, Slot, State};

fn is_in_range(s: &State) -> bool
    ensures { result ≡ in_range s.now.size s.now.delay s.now.clock }
{
    (1..=64).contains(&s.size) & (1..=255).contains(&s.delay) & (s.clock <= 9000000000000000000)
}

// The arrays are as long as the definition says; their types have it so.
fn are_whole(
    rows: &[Row; 32],
    slots: &[Slot; 64],
    holdings: &[Holding; 2048],
    places: &[usize; 32],
) -> bool
    ensures { result ≡ lengths_test rows.now slots.now holdings.now places.now }
{
    (rows.len() == 32) & (slots.len() == 64) & (holdings.len() == 2048) & (places.len() == 32)
}

// An arrival is at most clock + delay.
fn may_arrive(s: &State, arrival: u64) -> bool
    ensures { result ≡ leb arrival (s.now.clock + s.now.delay) }
{
    arrival <= s.clock.saturating_add(s.delay)
}

fn is_slot_sound(s: &State, slot: usize) -> bool
    requires { slot < 64 }
    ensures { result ≡ sound_slot s.now slot }
{
    let x = &s.slots[slot];
    match x.content {
        Content::Empty => x.touch == 0,
        Content::Filled {
            page,
            arrival,
            lowest,
            ..
        } => {
            (page <= 4095)
                & (lowest <= 3)
                & (x.touch <= s.clock)
                & may_arrive(s, arrival)
                & (slot < s.size)
        }
    }
}

// By number, here and below, as the clauses of sound name slots, rows and levels.
fn are_slots_sound(s: &State) -> bool
    ensures { result ≡ all_below 64 (sound_slot s.now) }
{
    (0..64usize).all(|i| is_slot_sound(s, i))
}

// Where the page of a slot is noted: at its number, and at 4096 where the slot has no page below 4096.
fn place_of(c: Content) -> usize
    ensures { (result ≡ place_in c) × (result < 4097) }
{
    match c {
        Content::Filled { page, .. } if page < 4096 => page as usize,
        _ => 4096,
    }
}

fn no_pages() -> [bool; 4097]
    ensures { result ≡ no_pages }
{
    [false; 4097]
}

// No page below 4096 is in two slots.
fn are_pages_apart(slots: &[Slot; 64]) -> bool
    ensures { result ≡ all_below 64 (λ slot. not (place_taken slots.now slot)) }
{
    let mut seen = no_pages();
    for x in slots {
        let k = place_of(x.content);
        if seen[k] {
            return false;
        }
        seen[k] = k < 4096;
    }
    true
}

// The holding has arrived, or is none.
fn has_arrived(s: &State, h: &Holding) -> bool
    ensures { result ≡ not (is_held h.now.pin) || leb h.now.arrival s.now.clock }
{
    !model::is_held(h.pin) | (h.arrival <= s.clock)
}

// All holdings of a row have arrived.
fn is_settled(s: &State, row: usize) -> bool
    requires { row < 32 }
    ensures { result ≡ all_below 64 (λ slot. arrived s.now slot row) }
{
    (0..64usize).all(|slot| has_arrived(s, &s.holdings[slot * 32 + row]))
}

// A row pins one page that arrives when it is due, and its other holdings have arrived. Its holdings lie 32 apart, so they go by the numbers of the slots.
fn awaits_one(s: &State, row: usize, due: u64) -> bool
    requires { row < 32 }
    ensures { result ≡ eqb (count_below 64 (awaits s.now row due)) 1 && all_below 64 (λ slot. arrived s.now slot row || awaits s.now row due slot) }
{
    let mut number = 0usize;
    for slot in 0..64usize {
        let h = &s.holdings[slot * 32 + row];
        let awaited = model::is_pin(h.pin) & (h.arrival == due);
        if !(has_arrived(s, h) | awaited) {
            return false;
        }
        number += usize::from(awaited);
    }
    number == 1
}

fn is_row_sound(s: &State, row: usize) -> bool
    requires { row < 32 }
    ensures { result ≡ sound_row s.now row }
{
    let x = &s.rows[row];
    let in_time = !model::is_past(s.clock, x.deadline);
    match x.condition {
        Condition::Free | Condition::Killed(_) => x.deadline == 0,
        Condition::Idle => in_time & is_settled(s, row),
        Condition::Fetching(due) => in_time & (s.clock < due) & awaits_one(s, row, due),
        Condition::Waiting { page, mode } => {
            let class = model::class_of(s.borders, page);
            in_time & is_settled(s, row) & (page <= 4095) & model::may_access(row / 8, class, mode)
        }
    }
}

fn are_rows_sound(s: &State) -> bool
    ensures { result ≡ all_below 32 (sound_row s.now) }
{
    (0..32usize).all(|row| is_row_sound(s, row))
}

fn is_pin_allowed(level: usize, class: usize, p: Pin) -> bool
    ensures { result ≡ pin_allowed level class p }
{
    match p {
        Pin::Absent | Pin::Unpinned => true,
        Pin::Read => model::may_access(level, class, Mode::Read),
        Pin::Write => model::may_access(level, class, Mode::Write),
    }
}

// The class of the page in a slot, and of page 0 where there is none.
fn class_in(s: &State, slot: usize) -> usize
    requires { slot < 64 }
    ensures { result ≡ class_of s.now.borders (page_in (slot_at s.now slot).content) }
{
    model::class_of(s.borders, model::page_in(s.slots[slot].content))
}

// The holding of a row on a slot, whose page has the class.
fn is_holding_sound(s: &State, slot: usize, row: usize, class: usize) -> bool
    requires { (slot < 64) × (row < 32) × (class ≡ class_of s.now.borders (page_in (slot_at s.now slot).content)) }
    ensures { result ≡ sound_holding s.now slot row }
{
    let h = &s.holdings[slot * 32 + row];
    if !model::is_held(h.pin) {
        return (h.arrival == 0) & (h.touch == 0);
    }
    let x = &s.slots[slot];
    match x.content {
        Content::Empty => false,
        Content::Filled {
            arrival,
            lowest,
            ..
        } => {
            model::is_live(s.rows[row].condition)
                & is_pin_allowed(row / 8, class, h.pin)
                & (arrival <= h.arrival)
                & may_arrive(s, h.arrival)
                & (h.touch <= x.touch)
                & (lowest <= row / 8)
        }
    }
}

// The weight of a pin: 32 read pins weigh less than a write pin, and a write pin beside another pin more than 64.
fn pin_weight(p: Pin) -> u32
    ensures { (result ≡ pin_weight p) × (result ≤ 64) }
{
    match p {
        Pin::Absent | Pin::Unpinned => 0,
        Pin::Read => 1,
        Pin::Write => 64,
    }
}

// The holdings on a slot, and its pins, by the numbers of the rows, as `sound_holding` names them.
fn are_slot_holdings_sound(s: &State, slot: usize) -> bool
    requires { slot < 64 }
    ensures { result ≡ all_below 32 (sound_holding s.now slot) && sound_pins s.now slot }
{
    let class = class_in(s, slot);
    let mut weight = 0u32;
    for row in 0..32usize {
        if !is_holding_sound(s, slot, row, class) {
            return false;
        }
        weight += pin_weight(s.holdings[slot * 32 + row].pin);
    }
    weight <= 64
}

fn are_holdings_sound(s: &State) -> bool
    ensures { result ≡ all_below 64 (λ slot. all_below 32 (sound_holding s.now slot) && sound_pins s.now slot) }
{
    (0..64usize).all(|slot| are_slot_holdings_sound(s, slot))
}

fn are_rows_free(rows: &[Row; 32]) -> bool
    ensures { result ≡ all_below 32 (λ row. is_free (get_or rows.now row free_row).condition) }
{
    rows.iter().all(|x| model::is_free(x.condition))
}

fn are_slots_empty(slots: &[Slot; 64]) -> bool
    ensures { result ≡ all_below 64 (λ slot. not (is_filled (get_or slots.now slot empty_slot).content)) }
{
    slots.iter().all(|x| !model::is_filled(x.content))
}

// Before a row has begun rows are free and slots empty.
fn are_borders_sound(s: &State) -> bool
    ensures { result ≡ sound_borders s.now }
{
    let fresh = are_rows_free(&s.rows) & are_slots_empty(&s.slots);
    model::are_borders(s.borders) & (s.begun | fresh)
}

// A row's place in the begin order: 0 for a free row, and from 1 to the most for another.
fn is_place_sound(s: &State, level: usize, number: usize, most: usize) -> bool
    requires { (level < 4) × (number < 8) × (most ≡ rows_not_free s.now.rows level) }
    ensures { result ≡ sound_place s.now level number }
{
    let place = s.places[level * 8 + number];
    if model::is_free(s.rows[level * 8 + number].condition) {
        place == 0
    } else {
        (1 <= place) & (place <= most)
    }
}

// No row of a level before this one has its place.
fn is_alone(s: &State, level: usize, number: usize) -> bool
    requires { (level < 4) × (number < 8) }
    ensures { result ≡ all_below number (λ other. not (same_place s.now level number other)) }
{
    let place = s.places[level * 8 + number];
    (0..number).all(|other| !((0 < place) & (place == s.places[level * 8 + other])))
}

fn is_order_sound(s: &State, level: usize) -> bool
    requires { level < 4 }
    ensures { result ≡ sound_order s.now level }
{
    let most = model::rows_not_free(s.rows, level);
    (0..8usize).all(|number| {
        is_place_sound(s, level, number, most) & is_alone(s, level, number)
    })
}

fn are_orders_sound(s: &State) -> bool
    ensures { result ≡ all_below 4 (sound_order s.now) }
{
    (0..4usize).all(|level| is_order_sound(s, level))
}

// Whether a state is sound. Its numbers may be any, and where they are out of range nothing else is looked at.
pub fn is_sound(s: &State) -> bool
    ensures { result ≡ sound s.now }
{
    if !is_in_range(s) {
        return false;
    }
    are_whole(&s.rows, &s.slots, &s.holdings, &s.places)
        & are_slots_sound(s)
        & are_pages_apart(&s.slots)
        & are_rows_sound(s)
        & are_holdings_sound(s)
        & are_borders_sound(s)
        & are_orders_sound(s)
}
