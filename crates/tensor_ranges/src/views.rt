// Views: the unused one, and what a view must keep to.
ghost use Rattle.std.specs.Prelude.{◌≡◌, ◌≤◌, ◌<◌};
ghost use Rattle.sheet.specs.Sizes.{rank_places};
ghost use Rattle.tensor_ranges.specs.Views.{no_view_dimension, no_clip, no_view, fresh, entry_ok, permutation_ok, view_dimension_unused, view_dimension_at_ok, view_dimensions_ok, sized_rank, view_ok, clip_unused, view_unused};

use sheet::sizes::RANK;
use sheet::{Clip, View, ViewDimension, sizes};

pub fn no_view_dimension() -> ViewDimension
    ensures { result ≡ no_view_dimension }
{
    ViewDimension { size: 0, stride: 0 }
}

fn no_clip() -> Clip
    ensures { result ≡ no_clip }
{
    Clip { offset: 0, span: 0 }
}

#[tactic(auto, unfolding(crate::specs::Views::no_view))]
pub fn no_view() -> View
    ensures { result ≡ no_view }
{
    View {
        rank: 0,
        sized: false,
        permutation: [0; RANK],
        dimensions: [no_view_dimension(); RANK],
        rows: no_clip(),
        columns: no_clip(),
    }
}

// Entry k differs from each one before it.
fn fresh(p: [u8; RANK], k: usize) -> bool
    requires { k < rank_places }
    ensures { result ≡ fresh p k }
{
    (0..k).all(|j| p[j] != p[k])
}

#[tactic(auto, unfolding(crate::specs::Views::entry_ok, numbers::specs::Choice::both, numbers::specs::Choice::pick))]
fn entry_ok(rank: u8, p: [u8; RANK], k: usize) -> bool
    requires { k < rank_places }
    ensures { result ≡ entry_ok rank p k }
{
    if k < usize::from(rank) {
        p[k] < rank && fresh(p, k)
    } else {
        p[k] == 0
    }
}

// Of the places the first `rank` hold each number below it once, the others 0.
fn permutation_ok(rank: u8, p: [u8; RANK]) -> bool
    ensures { result ≡ permutation_ok rank p }
{
    (0..RANK).all(|k| entry_ok(rank, p, k))
}

#[tactic(auto, unfolding(crate::specs::Views::view_dimension_unused, numbers::specs::Choice::both, numbers::specs::Choice::pick))]
fn view_dimension_unused(d: ViewDimension) -> bool
    ensures { result ≡ view_dimension_unused d }
{
    d.size == 0 && d.stride == 0
}

// Any stride of 16 bits is within Sizes.
#[tactic(auto, unfolding(crate::specs::Views::view_dimension_at_ok, numbers::specs::Choice::pick))]
fn view_dimension_at_ok(count: u8, ds: [ViewDimension; RANK], k: usize) -> bool
    requires { k < rank_places }
    ensures { result ≡ view_dimension_at_ok count ds k }
{
    if k < usize::from(count) {
        sizes::size_ok(ds[k].size)
    } else {
        view_dimension_unused(ds[k])
    }
}

// Of the places the first `count` hold a view dimension, the others nothing.
fn view_dimensions_ok(count: u8, ds: [ViewDimension; RANK]) -> bool
    ensures { result ≡ view_dimensions_ok count ds }
{
    (0..RANK).all(|k| view_dimension_at_ok(count, ds, k))
}

// How many dimensions and strides of its own a view has.
#[tactic(auto, unfolding(crate::specs::Views::sized_rank, numbers::specs::Choice::pick))]
pub fn sized_rank(sized: bool, rank: u8) -> u8
    ensures { result ≡ sized_rank sized rank }
{
    if sized { rank } else { 0 }
}

// Any clip of four 16-bit numbers is within Sizes.
#[tactic(auto, unfolding(crate::specs::Views::view_ok, numbers::specs::Choice::both, numbers::specs::Choice::pick))]
pub fn view_ok(v: View) -> bool
    ensures { result ≡ view_ok v }
{
    sizes::rank_ok(v.rank)
        && permutation_ok(v.rank, v.permutation)
        && view_dimensions_ok(sized_rank(v.sized, v.rank), v.dimensions)
}

#[tactic(auto, unfolding(crate::specs::Views::clip_unused, numbers::specs::Choice::both, numbers::specs::Choice::pick))]
fn clip_unused(c: Clip) -> bool
    ensures { result ≡ clip_unused c }
{
    c.offset == 0 && c.span == 0
}

#[tactic(auto, unfolding(crate::specs::Views::view_unused, numbers::specs::Choice::both, numbers::specs::Choice::pick))]
pub fn view_unused(v: View) -> bool
    ensures { result ≡ view_unused v }
{
    v.rank == 0
        && !v.sized
        && permutation_ok(0, v.permutation)
        && view_dimensions_ok(0, v.dimensions)
        && clip_unused(v.rows)
        && clip_unused(v.columns)
}
