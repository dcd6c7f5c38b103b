// What the content of a layout's and of a view's field says.
#![tactic(auto)]

ghost use Rattle.std.specs.Prelude.{◌≡◌, true, ◌+◌, ◌*◌, ◌≤◌, ◌<◌, length};
ghost use Rattle.sheet.specs.Sizes.{rank_places};
ghost use Rattle.contents.specs.Contents.{dimension_at, dimensions_at, layout_at, layout_length_ok, layout_head_ok, permutation_at, view_dimension_at, view_dimensions_at, clip_at, view_of, view_at, view_length, view_length_ok, view_head_ok};

use numbers::{u16_at, u32_at};
use sheet::sizes::RANK;
use sheet::{Clip, Dimension, Layout, View, ViewDimension, codes, sizes};
use tensor_ranges::{layouts, views};

#[tactic(auto, unfolding(crate::specs::Contents::dimension_at))]
fn dimension_at(s: &[u8], p: usize) -> Dimension
    requires { p + 10 ≤ length s.now }
    ensures { result ≡ dimension_at s.now p }
{
    Dimension {
        block: u16_at(s, p),
        size: u16_at(s, p + 2),
        stride: u16_at(s, p + 4),
        offset: u16_at(s, p + 6),
        span: u16_at(s, p + 8),
    }
}

#[tactic(auto, unfolding(crate::specs::Contents::dimensions_at, numbers::specs::Lists::line))]
fn dimensions_at(s: &[u8], p: usize, rank: usize) -> [Dimension; RANK]
    requires { (rank ≤ rank_places) × (p + rank * 10 ≤ length s.now) }
    ensures { result ≡ dimensions_at s.now p rank }
{
    let mut ds = [layouts::no_dimension(); RANK];
    for k in 0..rank {
        ds[k] = dimension_at(s, p + k * 10);
    }
    ds
}

// The layout whose content starts at p. Its head was found right.
#[tactic(auto, using(crate::specs::Laws::Heads::layout_head), unfolding(crate::specs::Contents::layout_at))]
pub fn layout_at(s: &[u8], p: usize, len: usize) -> Layout
    requires { (2 ≤ len) × (p + len ≤ length s.now) × (layout_head_ok s.now p len ≡ true) }
    ensures { result ≡ layout_at s.now p }
{
    let rank = s[p];
    Layout {
        rank,
        mode: codes::clamp_mode(s[p + 1]),
        clamp: u32_at(s, p + 2),
        dimensions: dimensions_at(s, p + 6, usize::from(rank)),
    }
}

// Lengths 16, 26, 36, 46, 56.
#[tactic(auto, unfolding(crate::specs::Contents::layout_length_ok, numbers::specs::Choice::both, numbers::specs::Choice::pick))]
pub fn layout_length_ok(len: usize) -> bool
    ensures { result ≡ layout_length_ok len }
{
    numbers::between(16, 56, len) && len % 10 == 6
}

// The dimension count gives the length, and the clamp mode is in the table.
#[tactic(auto, unfolding(crate::specs::Contents::layout_head_ok, numbers::specs::Choice::both, numbers::specs::Choice::pick))]
pub fn layout_head_ok(s: &[u8], p: usize, len: usize) -> bool
    requires { (2 ≤ len) × (p + len ≤ length s.now) }
    ensures { result ≡ layout_head_ok s.now p len }
{
    sizes::rank_ok(s[p]) && 6 + usize::from(s[p]) * 10 == len && s[p + 1] <= 4
}

fn permutation_at(s: &[u8], p: usize, rank: usize) -> [u8; RANK]
    requires { (rank ≤ rank_places) × (p + rank ≤ length s.now) }
    ensures { result ≡ permutation_at s.now p rank }
{
    let mut entries = [0; RANK];
    entries[..rank].copy_from_slice(&s[p..p + rank]);
    entries
}

#[tactic(auto, unfolding(crate::specs::Contents::view_dimension_at))]
fn view_dimension_at(s: &[u8], p: usize) -> ViewDimension
    requires { p + 4 ≤ length s.now }
    ensures { result ≡ view_dimension_at s.now p }
{
    ViewDimension {
        size: u16_at(s, p),
        stride: u16_at(s, p + 2),
    }
}

#[tactic(auto, unfolding(crate::specs::Contents::view_dimensions_at, numbers::specs::Lists::line))]
fn view_dimensions_at(s: &[u8], p: usize, count: usize) -> [ViewDimension; RANK]
    requires { (count ≤ rank_places) × (p + count * 4 ≤ length s.now) }
    ensures { result ≡ view_dimensions_at s.now p count }
{
    let mut ds = [views::no_view_dimension(); RANK];
    for k in 0..count {
        ds[k] = view_dimension_at(s, p + k * 4);
    }
    ds
}

#[tactic(auto, unfolding(crate::specs::Contents::clip_at))]
fn clip_at(s: &[u8], p: usize) -> Clip
    requires { p + 4 ≤ length s.now }
    ensures { result ≡ clip_at s.now p }
{
    Clip {
        offset: u16_at(s, p),
        span: u16_at(s, p + 2),
    }
}

#[tactic(auto, unfolding(crate::specs::Contents::view_of))]
fn view_of(s: &[u8], p: usize, rank: u8, sized: bool, count: u8) -> View
    requires { (rank ≤ rank_places) × (count ≤ rank_places) × (p + view_length rank count ≤ length s.now) }
    ensures { result ≡ view_of s.now p rank sized count }
{
    let n = usize::from(rank);
    let own = usize::from(count);
    View {
        rank,
        sized,
        permutation: permutation_at(s, p + 2, n),
        dimensions: view_dimensions_at(s, p + 2 + n, own),
        rows: clip_at(s, p + 2 + n + own * 4),
        columns: clip_at(s, p + 6 + n + own * 4),
    }
}

// The view whose content starts at p. Its head was found right.
#[tactic(auto, using(crate::specs::Laws::Heads::view_head), unfolding(crate::specs::Contents::view_at))]
pub fn view_at(s: &[u8], p: usize, len: usize) -> View
    requires { (2 ≤ len) × (p + len ≤ length s.now) × (view_head_ok s.now p len ≡ true) }
    ensures { result ≡ view_at s.now p }
{
    let rank = s[p];
    let sized = s[p + 1] == 1;
    view_of(s, p, rank, sized, views::sized_rank(sized, rank))
}

// Lengths 11 to 15, 20, 25, 30, 35.
#[tactic(auto, unfolding(crate::specs::Contents::view_length_ok, numbers::specs::Choice::both, numbers::specs::Choice::pick))]
pub fn view_length_ok(len: usize) -> bool
    ensures { result ≡ view_length_ok len }
{
    numbers::between(11, 15, len) || numbers::between(20, 35, len) && len % 5 == 0
}

// The dimension count and has-dimensions give the length.
#[tactic(auto, unfolding(crate::specs::Contents::view_head_ok, numbers::specs::Choice::both, numbers::specs::Choice::pick))]
pub fn view_head_ok(s: &[u8], p: usize, len: usize) -> bool
    requires { (2 ≤ len) × (p + len ≤ length s.now) }
    ensures { result ≡ view_head_ok s.now p len }
{
    let rank = s[p];
    let has = s[p + 1];
    let own = views::sized_rank(has == 1, rank);
    sizes::rank_ok(rank) && has <= 1 && 10 + usize::from(rank) + usize::from(own) * 4 == len
}
