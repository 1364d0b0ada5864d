// Which areas are taken besides those of the layout that is written: those of the last 32-bit layout, docs/LAYOUT.md.
#![tactic(auto)]

ghost use Rattle.std.specs.Prelude.{◌≡◌};
ghost use Rattle.layout32.specs.Known.{fits, known};

use model::Row;

// The last clock of the 32-bit layout.
const LAST_CLOCK: u64 = 4000000000;

// The clock and the deadlines of the rows fit the last 32-bit layout.
#[tactic(auto, unfolding(crate::specs::Known::fits))]
fn is_narrow(clock: u64, rows: &[Row; 32]) -> bool
    ensures { result ≡ fits clock rows.now }
{
    clock <= LAST_CLOCK && rows.iter().all(|x| x.deadline < 4294967296)
}

// An area of the version may have the clock and the rows.
#[tactic(auto, unfolding(crate::specs::Known::known))]
pub fn is_known(version: u64, clock: u64, rows: [Row; 32]) -> bool
    ensures { result ≡ known version clock rows }
{
    match version {
        4 => true,
        3 => is_narrow(clock, &rows),
        _ => false,
    }
}
