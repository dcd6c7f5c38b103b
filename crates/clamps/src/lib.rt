// Rule 4: a coordinate over the places of its dimension (document 01, "Where an element goes"), and the first dimension outside (document 02, T-06).
#![tactic(auto)]

ghost use Rattle.std.specs.Prelude.{◌≡◌, ℕ, ◌≤◌, ◌<◌, true, pos, ◌+ℤ◌, get_or};
ghost use Rattle.numbers.specs.Remainders.{remainder};
ghost use Rattle.sheet.specs.Sizes.{size_limit};
ghost use Rattle.tensor_ranges.specs.Layouts.{layout_ok};
ghost use Rattle.clamps.specs.Coordinates.{integer};
ghost use Rattle.clamps.specs.Clamps.{twos, edge, mirrored, on_load, on_store, outside, sided};
ghost use Rattle.clamps.specs.Sides.{first_outside};

use outcomes::{Outside, Side};
use sheet::sizes::RANK;
use sheet::{ClampMode, Layout};
use view_indices::wide;

// An integer: At(a) is a, Below(a) is -1-a.
#[derive(Clone, Copy)]
pub enum Coordinate {
    Below(u32),
    At(u32),
}

// What rule 4 makes of a coordinate, or of all of them up to a dimension.
#[derive(Clone, Copy)]
pub enum Clamped {
    Refused,
    Discarded,
    Filled,
    At(u32),
}

// Rule 4's answer: what it gives, and the side of the coordinate.
#[derive(Clone, Copy)]
pub struct Sided {
    pub side: Side,
    pub clamped: Clamped,
}

// A span coordinate plus a signed offset.
#[tactic(auto, using(crate::proofs::Laws::Offsets::lower, crate::proofs::Laws::Offsets::upper))]
pub fn shifted(s: u32, raw: u32) -> Coordinate
    requires { (s < size_limit) × (raw < 65536) }
    ensures { integer result ≡ pos s +ℤ twos raw }
{
    if raw < 32768 {
        return Coordinate::At(s + raw);
    }
    let back = 65536 - raw;
    if s < back {
        Coordinate::Below(back - s - 1)
    } else {
        Coordinate::At(s - back)
    }
}

fn rest(c: Coordinate, n: u32) -> u32
    requires { 0 < n }
    ensures { result ≡ remainder (integer c) n }
{
    match c {
        Coordinate::At(a) => a % n,
        Coordinate::Below(a) => n - 1 - a % n,
    }
}

fn to_edge(c: Coordinate, n: u32) -> u32
    requires { 0 < n }
    ensures { result ≡ edge (integer c) n }
{
    match c {
        Coordinate::At(_) => n - 1,
        Coordinate::Below(_) => 0,
    }
}

#[tactic(auto, unfolding(numbers::specs::Choice::pick, crate::specs::Clamps::mirrored, crate::specs::Clamps::turned_back))]
fn mirror(c: Coordinate, n: u32) -> u32
    requires { (0 < n) × (n ≤ size_limit) }
    ensures { result ≡ mirrored (integer c) n }
{
    if n == 1 {
        return 0;
    }
    let m = 2 * n - 2;
    let r = rest(c, m);
    if n <= r { m - r } else { r }
}

fn on_load(mode: ClampMode, c: Coordinate, n: u32) -> Clamped
    requires { (0 < n) × (n ≤ size_limit) }
    ensures { result ≡ on_load mode (integer c) n }
{
    match mode {
        ClampMode::Undefined => Clamped::Refused,
        ClampMode::Constant => Clamped::Filled,
        ClampMode::ClampToEdge => Clamped::At(to_edge(c, n)),
        ClampMode::Repeat => Clamped::At(rest(c, n)),
        ClampMode::MirrorRepeat => Clamped::At(mirror(c, n)),
    }
}

fn on_store(mode: ClampMode) -> Clamped
    ensures { result ≡ on_store mode }
{
    match mode {
        ClampMode::Undefined => Clamped::Refused,
        ClampMode::Constant => Clamped::Discarded,
        ClampMode::ClampToEdge => Clamped::Discarded,
        ClampMode::Repeat => Clamped::Discarded,
        ClampMode::MirrorRepeat => Clamped::Discarded,
    }
}

// What rule 4 gives outside the n places.
#[tactic(auto, unfolding(numbers::specs::Choice::pick, crate::specs::Clamps::outside))]
pub fn outside(load: bool, mode: ClampMode, c: Coordinate, n: u32) -> Clamped
    requires { (0 < n) × (n ≤ size_limit) }
    ensures { result ≡ outside load mode (integer c) n }
{
    if load {
        on_load(mode, c, n)
    } else {
        on_store(mode)
    }
}

// A coordinate over the n places of its dimension.
#[tactic(auto, unfolding(numbers::specs::Choice::pick, crate::specs::Clamps::clamped, crate::specs::Clamps::side_of))]
pub fn clamp(load: bool, mode: ClampMode, c: Coordinate, n: u32) -> Sided
    requires { (0 < n) × (n ≤ size_limit) }
    ensures { result ≡ sided load mode (integer c) n }
{
    match c {
        Coordinate::At(a) => {
            if n <= a {
                Sided {
                    side: Side::Above,
                    clamped: outside(load, mode, c, n),
                }
            } else {
                Sided {
                    side: Side::Inside,
                    clamped: Clamped::At(a),
                }
            }
        }
        Coordinate::Below(_) => Sided {
            side: Side::Below,
            clamped: outside(load, mode, c, n),
        },
    }
}

// The first dimension outside by the span coordinates of an element: asked for one element at a time, and no part of a job, which needs no dimension's name.
#[tactic(auto, using(tensor_ranges::specs::Laws::Facts::layout_most))]
pub fn first_outside(load: bool, l: Layout, coordinates: [u32; RANK]) -> Outside
    requires { (layout_ok l ≡ true) × ((d : ℕ) → d < l.rank → get_or coordinates d 0 < size_limit) }
    ensures { result ≡ first_outside l coordinates }
{
    for d in 0..l.rank {
        let place = usize::from(d);
        let x = l.dimensions[place];
        let c = shifted(coordinates[place], wide(x.offset));
        match clamp(load, l.mode, c, wide(x.size)).side {
            Side::Inside => {}
            Side::Below => return Outside::Below(d),
            Side::Above => return Outside::Above(d),
        }
    }
    Outside::Nowhere
}
