// Laws of lists and of counted loops; what a search answers, and its turn.
#![tactic(auto)]

ghost use Rattle.std.specs.Prelude.{◌≡◌};
ghost use Rattle.seq.specs.Below.{considered, at_found};

// A place that a search found, or none: document 01 names this form, and that a request takes it apart by let .. else, so that it is no Option.
#[derive(Clone, Copy)]
pub enum Found {
    Nowhere,
    At(usize),
}

// One place more in a search: a place that passes is taken where none was found before, or where it comes before that one.
pub fn consider(passes: bool, f: Found, i: usize, before: bool) -> Found
    ensures { result ≡ considered passes f i (λ slot other. before) }
{
    match f {
        Found::At(_) if !before => f,
        _ if passes => Found::At(i),
        _ => f,
    }
}

// The place that was found, or 0.
pub fn place_of(f: Found) -> usize
    ensures { result ≡ at_found f (λ i. i) 0 }
{
    match f {
        Found::Nowhere => 0,
        Found::At(i) => i,
    }
}
