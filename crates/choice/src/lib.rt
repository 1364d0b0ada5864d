// The search for a page and the choice of a slot, steps a to g of document 01, on a state by value.
#![tactic(auto, unfolding(model::specs::Parties::better))]

ghost use Rattle.std.specs.Prelude.{◌≡◌, ◌<◌, ◌≤◌, Bool};
ghost use Rattle.model.specs.Words.{dirty_in, lowest_in, page_slot};
ghost use Rattle.rules.specs.Choice.{chosen};
ghost use Rattle.choice.specs.Inner.Summary.{ranks_of, joined_level, holders_with, holders_below, above, beside, summary_of, summaries_in};
ghost use Rattle.choice.specs.Inner.Search.{Tests, Orders, pick_in, is_dormant, dormant_before, held_before, top_from, held_from};

use model::{Content, Holding, Rank, Row, Slot, State};
use seq::Found;

// Of the items that pass the test the one that comes before the others, of equals the first. It answers a Found, which document 01 names, not an Option.
fn search<X, T: Fn(&X) -> bool, B: Fn(&X, &X) -> bool>(items: &[X], test: T, before: B) -> Found
    requires tests { T.IsAlwaysCallable test }
    requires orders { B.IsAlwaysCallable before }
    ensures { (p : X → Bool) (q : X → X → Bool) (d : X) → Tests T.Fn test p → Orders B.Fn before q → result ≡ pick_in items.now p q d }
{
    let mut found = Found::Nowhere;
    for (i, x) in items.iter().enumerate() {
        if !test(x) {
            continue;
        }
        let Found::At(j) = found else {
            found = Found::At(i);
            continue;
        };
        if before(x, &items[j]) {
            found = Found::At(i);
        }
    }
    found
}

// The slot that has a page, or nowhere.
pub fn find_page(slots: [Slot; 64], size: usize, page: u32) -> Found
    requires { size ≤ 64 }
    ensures { result ≡ page_slot slots size page }
{
    let has_page = |x: &Slot| matches!(x.content, Content::Filled { page: p, .. } if p == page);
    search(&slots[..size], has_page, |_, _| false)
}

// The ranks of all rows.
pub fn ranks(rows: [Row; 32], places: [usize; 32]) -> [Rank; 32]
    ensures { result ≡ ranks_of rows places }
{
    std::array::from_fn(|r| model::rank_of(r, rows[r].deadline, places[r]))
}

// The holders of a slot: the best of them and its rank; the latest touch by holders of its level; whether a row of that level pins the slot.
#[derive(Clone, Copy)]
struct Holders {
    best: usize,
    rank: Rank,
    latest: u64,
    pinned: bool,
}

impl Holders {
    // The slot is held only above the requester's level.
    fn is_above(&self, requester: Rank) -> bool
        ensures { result ≡ above requester self.now }
    {
        requester.level < self.rank.level
    }

    // The slot's seen holders are all of the requester's level, none better than the requester.
    fn is_beside(&self, requester: Rank) -> bool
        ensures { result ≡ beside requester self.now }
    {
        self.rank.level == requester.level && !model::is_better(self.rank, requester)
    }
}

// What steps b to f ask of a slot: what it has, its holders if it has any, and whether the requester pins it.
#[derive(Clone, Copy, Default)]
struct Summary {
    slot: Slot,
    holders: Option<Holders>,
    own: bool,
}

// A row of the best holder's level joins the holders.
fn join_level(w: Holders, row: usize, rank: Rank, h: &Holding) -> Holders
    ensures { result ≡ joined_level w row rank h.now }
{
    let joined = Holders {
        latest: w.latest.max(h.touch),
        pinned: w.pinned | model::is_pin(h.pin),
        ..w
    };
    if model::is_better(rank, w.rank) {
        Holders {
            best: row,
            rank,
            ..joined
        }
    } else {
        joined
    }
}

// One row more among the holders of a slot. Rows come in rising order, so a holder that is not of the best one's level is of a higher one.
fn holders_with(holders: Option<Holders>, row: usize, rank: Rank, h: &Holding) -> Option<Holders>
    ensures { result ≡ holders_with holders row rank h.now }
{
    if !model::is_held(h.pin) {
        return holders;
    }
    let Some(w) = holders else {
        return Some(Holders {
            best: row,
            rank,
            latest: h.touch,
            pinned: model::is_pin(h.pin),
        });
    };
    if rank.level == w.rank.level {
        return Some(join_level(w, row, rank, h));
    }
    holders
}

// The holders of a slot, by the ranks of all rows.
fn holders_of(s: &State, ranks: &[Rank; 32], slot: usize) -> Option<Holders>
    requires { (slot < 64) × (ranks.now ≡ ranks_of s.now.rows s.now.places) }
    ensures { result ≡ holders_below s.now slot 32 }
{
    let mut holders = None;
    for (r, h) in s.holdings[slot * 32..slot * 32 + 32].iter().enumerate() {
        holders = holders_with(holders, r, ranks[r], h);
    }
    holders
}

// The summary of a slot for a requester.
fn summary_of(s: &State, ranks: &[Rank; 32], requester: usize, slot: usize) -> Summary
    requires { (slot < 64) × (requester < 32) × (ranks.now ≡ ranks_of s.now.rows s.now.places) }
    ensures { result ≡ summary_of s.now requester slot }
{
    let own = s.holdings[slot * 32 + requester];
    Summary {
        slot: s.slots[slot],
        holders: holders_of(s, ranks, slot),
        own: model::is_pin(own.pin),
    }
}

// The summaries of the slots started with.
fn summaries(s: &State, requester: usize) -> [Summary; 64]
    requires { (s.now.size ≤ 64) × (requester < 32) }
    ensures { result ≡ summaries_in s.now requester }
{
    let ranks = ranks(s.rows, s.places);
    let mut all = [Summary::default(); 64];
    for (i, x) in all[..s.size].iter_mut().enumerate() {
        *x = summary_of(s, &ranks, requester, i);
    }
    all
}

// What orders dormant slots: the lowest level, clean before dirty, the touch.
fn dormant_key(x: Slot) -> (usize, bool, u64)
    ensures { result ≡ (lowest_in x.content, dirty_in x.content, x.touch) }
{
    match x.content {
        Content::Empty => (0, false, x.touch),
        Content::Filled { dirty, lowest, .. } => (lowest, dirty, x.touch),
    }
}

// Of two dormant slots the first comes before the second.
fn is_dormant_before(x: &Summary, y: &Summary) -> bool
    ensures { result ≡ dormant_before x.now.slot y.now.slot }
{
    dormant_key(x.slot) < dormant_key(y.slot)
}

fn is_dormant(x: &Summary) -> bool
    ensures { result ≡ is_dormant x.now }
{
    model::is_filled(x.slot.content) && x.holders.is_none()
}

// Of two held slots the first is taken before the second.
fn is_held_before(x: &Summary, y: &Summary) -> bool
    ensures { result ≡ held_before x.now y.now }
{
    let (Some(v), Some(w)) = (x.holders, y.holders) else {
        return false;
    };
    if v.best != w.best {
        return model::is_better(w.rank, v.rank);
    }
    (v.latest, model::page_in(x.slot.content)) < (w.latest, model::page_in(y.slot.content))
}

// M: the highest level of a best holder among the slots held only above the requester's level.
#[tactic(auto, unfolding(crate::specs::Inner::Search::top_from))]
fn top_level(m: &[Summary], requester: Rank) -> usize
    ensures { result ≡ top_from m.now requester }
{
    m.iter()
        .filter_map(|x| x.holders)
        .filter(|w| w.is_above(requester))
        .map(|w| w.rank.level)
        .max()
        .unwrap_or(0)
}

// Steps c to f: the held slot that a requester takes, or nowhere.
fn choose_held(m: &[Summary], requester: Rank) -> Found
    ensures { result ≡ held_from m.now requester }
{
    let top = top_level(m, requester);
    let is_top = |w: &Holders| w.is_above(requester) && w.rank.level == top;
    let c = |x: &Summary| x.holders.is_some_and(|w| is_top(&w) && !w.pinned);
    let d = |x: &Summary| x.holders.is_some_and(|w| is_top(&w) && w.pinned);
    let e = |x: &Summary| x
        .holders
        .is_some_and(|w| w.is_beside(requester) && !w.pinned);
    let f = |x: &Summary| x
        .holders
        .is_some_and(|w| w.is_beside(requester) && w.pinned && !x.own);
    if let Found::At(i) = search(m, c, is_held_before) {
        return Found::At(i);
    }
    if let Found::At(i) = search(m, d, is_held_before) {
        return Found::At(i);
    }
    if let Found::At(i) = search(m, e, is_held_before) {
        return Found::At(i);
    }
    search(m, f, is_held_before)
}

// The slot that a requester takes for a page that is in no slot, or nowhere. The holdings are asked only where no slot is empty.
pub fn choose(s: &State, row: usize) -> Found
    requires { (s.now.size ≤ 64) × (row < 32) }
    ensures { result ≡ chosen s.now row }
{
    let n = s.size;
    let empty = search(
        &s.slots[..n],
        |x| !model::is_filled(x.content),
        |_, _| false,
    );
    if let Found::At(i) = empty {
        return Found::At(i);
    }
    let all = summaries(s, row);
    let m = &all[..n];
    if let Found::At(i) = search(m, is_dormant, is_dormant_before) {
        return Found::At(i);
    }
    choose_held(m, model::rank_of(row, s.rows[row].deadline, s.places[row]))
}
