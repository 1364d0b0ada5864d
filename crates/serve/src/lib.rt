// How a request, the call's own or one that a tick tries, is served, steps 1 to 4 of document 01, on a state by value.
#![tactic(auto)]

ghost use Rattle.std.specs.Prelude.{◌≡◌, ◌+◌, ◌<◌, ◌≤◌, ◌^◌};
ghost use Rattle.seq.specs.Each.{each};
ghost use Rattle.model.specs.Words.{arrival_in};
ghost use Rattle.model.specs.Changes.{released};
ghost use Rattle.model.specs.Inner.Changed.{marked, outcome_of};
ghost use Rattle.rules.specs.Calls.{write_back, served};
ghost use Rattle.serve.specs.Inner.SlotHoldings.{holdings_on, seen_test, seen_in, least_in, sees_dormant_in, Tests, marks_of, must_wait_in, row_dirtied};
ghost use Rattle.serve.specs.Inner.Granted.{held_now, touched_slot, granted_row, granted_answer};
ghost use Rattle.serve.specs.Inner.Replies.{wait_reply, planned, taken, entered, granting};

use model::{
    Answer, Cause, Change, Condition, Content, Holding, Mode, Rank, Reply, Row, Setting, Slot,
    State,
};
use seq::Found;

pub fn arrival_in(c: Content) -> u64
    ensures { result ≡ arrival_in c }
{
    match c {
        Content::Empty => 0,
        Content::Filled { arrival, .. } => arrival,
    }
}

// The row is of the level or a lower one, and has a holding.
#[tactic(auto, unfolding(crate::specs::Inner::SlotHoldings::seen_test))]
pub fn is_seen(level: usize, row: usize, h: Holding) -> bool
    ensures { result ≡ seen_test level row h }
{
    row / 8 <= level && model::is_held(h.pin)
}

// The level sees the slot.
pub fn see(held: [Holding; 32], level: usize) -> bool
    ensures { result ≡ seen_in held level }
{
    held.iter().enumerate().any(|(r, h)| is_seen(level, r, *h))
}

// The least arrival among the holdings that the level sees.
pub fn least_arrival(held: [Holding; 32], level: usize) -> u64
    ensures { result ≡ least_in held level }
{
    held.iter()
        .enumerate()
        .filter(|(r, h)| is_seen(level, *r, **h))
        .map(|(_, h)| h.arrival)
        .min()
        .unwrap_or(0)
}

// Level 3 sees the slot's dormant page.
#[tactic(auto, using(crate::proofs::SlotLaws::seen_by_3), unfolding(crate::specs::Inner::SlotHoldings::sees_dormant_in))]
pub fn see_dormant(held: [Holding; 32], x: Slot, level: usize) -> bool
    ensures { result ≡ sees_dormant_in held x level }
{
    level == 3 && model::is_filled(x.content) && !see(held, 3)
}

// A request of a row, and the tick at which a page arrives that is fetched for it.
#[derive(Clone, Copy)]
struct Request {
    row: usize,
    page: u32,
    mode: Mode,
    due: u64,
    ghost in_range: { row < 32 },
}

// The 32 holdings of a slot, by row. A slot stays a plain number, as Found and Change have it: a type of its own would be taken apart at each use.
#[tactic(auto, using(model::proofs::SlotHoldings::long_lem))]
pub fn held_on(s: &State, slot: usize) -> [Holding; 32]
    requires { slot < 64 }
    ensures { result ≡ holdings_on s.now slot }
{
    let mut held = [Holding::default(); 32];
    held.copy_from_slice(model::holdings_on(s, slot));
    held
}

// The rows whose holdings pass, by row.
fn mark_rows<F: Fn(usize, Holding) -> bool>(held: &[Holding; 32], test: F) -> [bool; 32]
    requires { F.IsAlwaysCallable test }
    ensures { (p : _) → Tests F.Fn test held.now p → result ≡ marks_of held.now p }
{
    std::array::from_fn(|r| test(r, held[r]))
}

// Step 1: a marked row, which has a conflicting pin, is of better priority. Such a row is of the requester's level or a lower one, so the pin is seen.
fn must_wait(marks: &[bool; 32], ranks: &[Rank; 32], q: Request) -> bool
    ensures { result ≡ must_wait_in marks.now ranks.now q.row }
{
    let requester = ranks[q.row];
    marks.iter().zip(ranks).any(|(marked, rank)| *marked && model::is_better(*rank, requester))
}

// Step 4: a row's own holding keeps its arrival and the stronger pin.
#[tactic(auto, unfolding(crate::specs::Inner::Granted::held_now))]
fn hold(own: Holding, mode: Mode, arrival: u64, clock: u64) -> Holding
    ensures { result ≡ held_now own mode arrival clock }
{
    let asked = model::pin_of(mode);
    if model::is_held(own.pin) {
        Holding {
            pin: model::stronger_pin(own.pin, asked),
            touch: clock,
            ..own
        }
    } else {
        Holding {
            pin: asked,
            arrival,
            touch: clock,
        }
    }
}

// The slot's lowest level and latest touch.
#[tactic(auto, unfolding(crate::specs::Inner::Granted::touched_slot))]
fn touch_slot(x: Slot, level: usize, clock: u64) -> Slot
    ensures { result ≡ touched_slot x level clock }
{
    let mut n = Slot { touch: clock, ..x };
    if let Content::Filled { lowest, .. } = &mut n.content {
        *lowest = level.min(*lowest);
    }
    n
}

// Idle, if arrival ≤ clock, else fetching until then.
#[tactic(auto, unfolding(crate::specs::Inner::Granted::granted_row))]
fn grant_row(x: Row, arrival: u64, clock: u64) -> Row
    ensures { result ≡ granted_row x arrival clock }
{
    let condition = if arrival <= clock {
        Condition::Idle
    } else {
        Condition::Fetching(arrival)
    };
    Row { condition, ..x }
}

// Ready, if arrival ≤ clock, else fetch; apart from the row, as `granted_row` and `granted_answer` are.
#[tactic(auto, unfolding(crate::specs::Inner::Granted::granted_answer))]
fn grant_answer(slot: usize, arrival: u64, clock: u64, back: Option<u32>) -> Answer
    ensures { result ≡ granted_answer slot arrival clock back }
{
    if arrival <= clock {
        Answer::Ready { slot, back }
    } else {
        Answer::Fetch {
            due: arrival,
            slot,
            back,
        }
    }
}

// Step 4 on what the steps before it make of the state: the holding, the slot and the row of a request that is granted, and its answer.
#[tactic(auto, unfolding(crate::specs::Inner::Replies::granting))]
fn grant(mut c: Change, q: Request, arrival: u64, back: Option<u32>) -> Reply
    requires { c.slot < 64 }
    ensures { result ≡ granting c q.row q.mode arrival back }
{
    c.rows[q.row] = grant_row(c.rows[q.row], arrival, c.clock);
    c.slots[c.slot] = touch_slot(c.slots[c.slot], q.row / 8, c.clock);
    c.held[q.row] = hold(c.held[q.row], q.mode, arrival, c.clock);
    let answer = grant_answer(c.slot, arrival, c.clock, back);
    Reply { change: c, answer }
}

// A wait alters only the row's own condition.
#[tactic(auto, unfolding(crate::specs::Inner::Replies::wait_reply))]
fn wait(s: &State, q: Request) -> Reply
    ensures { result ≡ wait_reply s.now q.row q.page q.mode }
{
    let mut rows = s.rows;
    rows[q.row].condition = Condition::Waiting {
        page: q.page,
        mode: q.mode,
    };
    let change = model::drop_holdings(s.clock, rows, s.slots, [false; 32], Setting::Left);
    Reply {
        change,
        answer: Answer::Wait,
    }
}

// A dirty page is reported for write-back.
#[tactic(auto, unfolding(rules::specs::Calls::write_back))]
fn write_back(x: Slot) -> Option<u32>
    ensures { result ≡ write_back x }
{
    match x.content {
        Content::Filled {
            page,
            dirty: true,
            ..
        } => Some(page),
        _ => None,
    }
}

// What steps 1 to 3 come to in the slot that has the page, unless the row waits: the marked rows are killed, and the page arrives at a tick.
#[derive(Clone, Copy)]
struct Plan {
    marks: [bool; 32],
    arrival: u64,
}

// Step 1, page seen through a holding; step 2, level 3, dormant page; step 3, not seen.
fn plan_steps(s: &State, held: &[Holding; 32], x: Slot, q: Request) -> Option<Plan>
    ensures { result ≡ planned held.now s.now.rows s.now.places x q.row q.mode q.due }
{
    let level = q.row / 8;
    let asked = model::pin_of(q.mode);
    let marks = mark_rows(held, |other, h| {
        other != q.row && model::is_conflict(asked, h.pin)
    });
    if see(*held, level) {
        let ranks = choice::ranks(s.rows, s.places);
        if must_wait(&marks, &ranks, q) {
            return None;
        }
        let arrival = least_arrival(*held, level);
        return Some(Plan { marks, arrival });
    }
    if see_dormant(*held, x, level) {
        return Some(Plan {
            marks: [false; 32],
            arrival: arrival_in(x.content),
        });
    }
    Some(Plan {
        marks,
        arrival: q.due,
    })
}

// The slots, dirty where a holding of the row had written the page.
fn mark_written(s: &State, row: usize, slots: &mut [Slot; 64])
    requires { row < 32 }
    ensures { slots.new ≡ each (row_dirtied s.now row) slots.old }
{
    for (i, x) in slots.iter_mut().enumerate() {
        let wrote = model::is_written(s.clock, s.holdings[i * 32 + row]);
        *x = model::marked_slot(wrote, *x);
    }
}

// The slots once the marked rows have lost all their holdings. model::released_slots takes the state by value, a copy for each request and each try.
fn release(s: &State, gone: &[bool; 32]) -> [Slot; 64]
    ensures { result ≡ (released (marked gone.now) s.now).slots }
{
    let mut slots = s.slots;
    for (r, g) in gone.iter().enumerate() {
        if *g {
            mark_written(s, r, &mut slots);
        }
    }
    slots
}

// What the steps before step 4 make of the state, where a slot has the holdings given: the marked rows are killed as taken, and lose all their holdings.
#[tactic(auto, unfolding(crate::specs::Inner::Replies::taken))]
fn take_rows(s: &State, gone: [bool; 32], slot: usize, held: [Holding; 32]) -> Change
    ensures { result ≡ taken s.now gone slot held }
{
    Change {
        clock: s.clock,
        rows: model::kill_rows(s.rows, gone, Cause::Taken),
        slots: release(s, &gone),
        gone,
        slot,
        held: model::remaining_holdings(held, gone),
        setting: Setting::Left,
    }
}

// Step 3, not seen, in a chosen slot: rows that pin it are killed, other holders lose it, and it is given to the page.
fn into_slot(s: &State, slot: usize, q: Request) -> Reply
    requires { slot < 64 }
    ensures { result ≡ entered s.now slot q.row q.page q.mode q.due }
{
    let held = held_on(s, slot);
    let gone = mark_rows(&held, |_, h| model::is_pin(h.pin));
    let mut c = take_rows(s, gone, slot, held);
    let back = write_back(c.slots[slot]);
    c.slots[slot] = Slot {
        content: Content::Filled {
            page: q.page,
            arrival: q.due,
            dirty: false,
            lowest: q.row / 8,
        },
        touch: s.clock,
    };
    c.held = [Holding::default(); 32];
    grant(c, q, q.due, back)
}

// The request of a row for a page: the search for the page, and steps 1 to 4.
pub fn serve(s: State, row: usize, page: u32, mode: Mode) -> Reply
    requires { (s.size ≤ 64) × (row < 32) × (s.clock + s.delay < 2 ^ 64) }
    ensures { outcome_of s result ≡ served s row page mode }
{
    let due = s.clock + s.delay;
    let q = Request {
        row,
        page,
        mode,
        due,
    };
    let Found::At(slot) = choice::find_page(s.slots, s.size, page) else {
        let Found::At(chosen) = choice::choose(&s, row) else {
            return wait(&s, q);
        };
        return into_slot(&s, chosen, q);
    };
    let held = held_on(&s, slot);
    let Some(plan) = plan_steps(&s, &held, s.slots[slot], q) else {
        return wait(&s, q);
    };
    let c = take_rows(&s, plan.marks, slot, held);
    grant(c, q, plan.arrival, None)
}
