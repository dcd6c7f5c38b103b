// What a job counts.
#![tactic(auto)]

ghost use Rattle.std.specs.Prelude.{◌≡◌, ◌<◌, ◌^◌};
ghost use Rattle.counts.specs.Counts.{no_counts, more_placed};

#[derive(Clone, Copy)]
pub struct Counts {
    // Elements of loads and stores that had a byte.
    pub placed: usize,
}

pub fn no_counts() -> Counts
    ensures { result ≡ no_counts }
{
    Counts { placed: 0 }
}

// With n more elements that had a byte.
pub fn more_placed(c: Counts, n: usize) -> Counts
    requires { (c.placed < 2 ^ 32) × (n < 2 ^ 32) }
    ensures { result ≡ more_placed c n }
{
    Counts {
        placed: c.placed + n,
    }
}
