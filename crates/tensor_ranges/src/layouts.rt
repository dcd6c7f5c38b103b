// Layouts: the unused one, and what a layout must keep to.
ghost use Rattle.std.specs.Prelude.{◌≡◌, ◌≤◌, ◌<◌};
ghost use Rattle.sheet.specs.Sizes.{rank_places};
ghost use Rattle.tensor_ranges.specs.Layouts.{no_dimension, no_layout, dimension_ok, dimension_unused, dimension_at_ok, dimensions_ok, layout_ok, layout_unused};

use sheet::sizes::RANK;
use sheet::{ClampMode, Dimension, Layout, codes, sizes};

pub fn no_dimension() -> Dimension
    ensures { result ≡ no_dimension }
{
    Dimension {
        block: 0,
        size: 0,
        stride: 0,
        offset: 0,
        span: 0,
    }
}

#[tactic(auto, unfolding(crate::specs::Layouts::no_layout))]
pub fn no_layout() -> Layout
    ensures { result ≡ no_layout }
{
    Layout {
        rank: 0,
        mode: ClampMode::Undefined,
        clamp: 0,
        dimensions: [no_dimension(); RANK],
    }
}

// Any stride of 16 bits is within Sizes.
#[tactic(auto, unfolding(crate::specs::Layouts::dimension_ok, numbers::specs::Choice::both, numbers::specs::Choice::pick))]
fn dimension_ok(d: Dimension) -> bool
    ensures { result ≡ dimension_ok d }
{
    sizes::size_ok(d.block)
        && sizes::size_ok(d.size)
        && sizes::offset_ok(d.offset)
        && sizes::size_ok(d.span)
}

#[tactic(auto, unfolding(crate::specs::Layouts::dimension_unused, numbers::specs::Choice::both, numbers::specs::Choice::pick))]
fn dimension_unused(d: Dimension) -> bool
    ensures { result ≡ dimension_unused d }
{
    d.block == 0 && d.size == 0 && d.stride == 0 && d.offset == 0 && d.span == 0
}

#[tactic(auto, unfolding(crate::specs::Layouts::dimension_at_ok, numbers::specs::Choice::pick))]
fn dimension_at_ok(rank: u8, ds: [Dimension; RANK], k: usize) -> bool
    requires { k < rank_places }
    ensures { result ≡ dimension_at_ok rank ds k }
{
    if k < usize::from(rank) {
        dimension_ok(ds[k])
    } else {
        dimension_unused(ds[k])
    }
}

// Of the places the first `rank` hold a dimension, the others nothing.
fn dimensions_ok(rank: u8, ds: [Dimension; RANK]) -> bool
    ensures { result ≡ dimensions_ok rank ds }
{
    (0..RANK).all(|k| dimension_at_ok(rank, ds, k))
}

#[tactic(auto, unfolding(crate::specs::Layouts::layout_ok, numbers::specs::Choice::both, numbers::specs::Choice::pick))]
pub fn layout_ok(l: Layout) -> bool
    ensures { result ≡ layout_ok l }
{
    sizes::rank_ok(l.rank) && dimensions_ok(l.rank, l.dimensions)
}

#[tactic(auto, unfolding(crate::specs::Layouts::layout_unused, numbers::specs::Choice::both, numbers::specs::Choice::pick))]
pub fn layout_unused(l: Layout) -> bool
    ensures { result ≡ layout_unused l }
{
    l.rank == 0 && codes::undefined(l.mode) && l.clamp == 0 && dimensions_ok(0, l.dimensions)
}
