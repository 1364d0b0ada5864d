// The ten calls for C, as include/sabre.h declares them. Each is the function of crates/sabre of its name, with that function's clauses.
#![tactic(auto)]

ghost use Rattle.std.specs.Prelude.{◌≡◌, length};
ghost use Rattle.model.specs.declared.Call.TheVariants.{Start, Begin, Request, Unpin, End, Tick, Look, View, Count, Borders};
ghost use Rattle.sabre.specs.Lent.{answer_on, area_after, list_after, status, answer_numbers};

#[unsafe(no_mangle)]
pub extern "C" fn sabre_start(area: &mut [u8], slots: u32, delay: u64, answer: &mut [u64; 4]) -> u32
    ensures returned { result ≡ status (answer_on area.old (Start slots delay)) }
    ensures told { answer.new ≡ answer_numbers (answer_on area.old (Start slots delay)) }
    ensures left { area.new ≡ area_after area.old (Start slots delay) }
{
    sabre::sabre_start(area, slots, delay, answer)
}

#[unsafe(no_mangle)]
pub extern "C" fn sabre_begin(
    area: &mut [u8],
    level: u32,
    row: u32,
    deadline: u64,
    answer: &mut [u64; 4],
) -> u32
    ensures returned { result ≡ status (answer_on area.old (Begin level row deadline)) }
    ensures told { answer.new ≡ answer_numbers (answer_on area.old (Begin level row deadline)) }
    ensures left { area.new ≡ area_after area.old (Begin level row deadline) }
{
    sabre::sabre_begin(area, level, row, deadline, answer)
}

#[unsafe(no_mangle)]
pub extern "C" fn sabre_request(
    area: &mut [u8],
    level: u32,
    row: u32,
    page: u32,
    mode: u32,
    answer: &mut [u64; 4],
) -> u32
    ensures returned { result ≡ status (answer_on area.old (Request level row page mode)) }
    ensures told { answer.new ≡ answer_numbers (answer_on area.old (Request level row page mode)) }
    ensures left { area.new ≡ area_after area.old (Request level row page mode) }
{
    sabre::sabre_request(area, level, row, page, mode, answer)
}

#[unsafe(no_mangle)]
pub extern "C" fn sabre_unpin(
    area: &mut [u8],
    level: u32,
    row: u32,
    page: u32,
    answer: &mut [u64; 4],
) -> u32
    ensures returned { result ≡ status (answer_on area.old (Unpin level row page)) }
    ensures told { answer.new ≡ answer_numbers (answer_on area.old (Unpin level row page)) }
    ensures left { area.new ≡ area_after area.old (Unpin level row page) }
{
    sabre::sabre_unpin(area, level, row, page, answer)
}

#[unsafe(no_mangle)]
pub extern "C" fn sabre_end(area: &mut [u8], level: u32, row: u32, answer: &mut [u64; 4]) -> u32
    ensures returned { result ≡ status (answer_on area.old (End level row)) }
    ensures told { answer.new ≡ answer_numbers (answer_on area.old (End level row)) }
    ensures left { area.new ≡ area_after area.old (End level row) }
{
    sabre::sabre_end(area, level, row, answer)
}

#[unsafe(no_mangle)]
pub extern "C" fn sabre_tick(area: &mut [u8], list: &mut [u8], answer: &mut [u64; 4]) -> u32
    ensures returned { result ≡ status (answer_on area.old (Tick (length list.old))) }
    ensures told { answer.new ≡ answer_numbers (answer_on area.old (Tick (length list.old))) }
    ensures left { area.new ≡ area_after area.old (Tick (length list.old)) }
    ensures listed { list.new ≡ list_after area.old (Tick (length list.old)) list.old }
{
    sabre::sabre_tick(area, list, answer)
}

#[unsafe(no_mangle)]
pub extern "C" fn sabre_look(area: &[u8], level: u32, row: u32, answer: &mut [u64; 4]) -> u32
    ensures returned { result ≡ status (answer_on area.now (Look level row)) }
    ensures told { answer.new ≡ answer_numbers (answer_on area.now (Look level row)) }
{
    sabre::sabre_look(area, level, row, answer)
}

#[unsafe(no_mangle)]
pub extern "C" fn sabre_view(area: &[u8], level: u32, page: u32, answer: &mut [u64; 4]) -> u32
    ensures returned { result ≡ status (answer_on area.now (View level page)) }
    ensures told { answer.new ≡ answer_numbers (answer_on area.now (View level page)) }
{
    sabre::sabre_view(area, level, page, answer)
}

#[unsafe(no_mangle)]
pub extern "C" fn sabre_count(area: &[u8], level: u32, answer: &mut [u64; 4]) -> u32
    ensures returned { result ≡ status (answer_on area.now (Count level)) }
    ensures told { answer.new ≡ answer_numbers (answer_on area.now (Count level)) }
{
    sabre::sabre_count(area, level, answer)
}

#[unsafe(no_mangle)]
pub extern "C" fn sabre_borders(
    area: &mut [u8],
    first: u32,
    second: u32,
    third: u32,
    answer: &mut [u64; 4],
) -> u32
    ensures returned { result ≡ status (answer_on area.old (Borders first second third)) }
    ensures told { answer.new ≡ answer_numbers (answer_on area.old (Borders first second third)) }
    ensures left { area.new ≡ area_after area.old (Borders first second third) }
{
    sabre::sabre_borders(area, first, second, third, answer)
}
