// Rule 1 with a view.
ghost use Rattle.std.specs.Prelude.{◌≡◌, ◌≤◌, ◌<◌, false};
ghost use Rattle.sheet.specs.Sizes.{matrix_places};
ghost use Rattle.addressing.specs.Rules.{outside_clip, outside_view, clip_index};

use sheet::{Clip, View};
use view_indices::wide;

#[tactic(auto, unfolding(numbers::specs::Choice::pick, crate::specs::Rules::outside_clip))]
fn outside_clip(c: Clip, x: u32) -> bool
    ensures { result ≡ outside_clip c x }
{
    let offset = wide(c.offset);
    x < offset || offset + wide(c.span) <= x
}

// A position outside the clip of a view.
#[tactic(auto, unfolding(numbers::specs::Choice::pick, crate::specs::Rules::outside_view))]
pub fn outside_view(v: View, row: u32, col: u32) -> bool
    ensures { result ≡ outside_view v row col }
{
    outside_clip(v.rows, row) || outside_clip(v.columns, col)
}

// A matrix has at most 256 elements, so the index is below 65,536.
#[tactic(auto, using(crate::proofs::Laws::clip_low, crate::proofs::Laws::inside_rows, crate::proofs::Laws::inside_columns))]
pub fn clip_index(v: View, width: u32, row: u32, col: u32) -> u32
    requires { (width ≤ matrix_places) × (row < matrix_places) × (col < matrix_places) × (outside_view v row col ≡ false) }
    ensures { result ≡ clip_index v width row col }
{
    (row - wide(v.rows.offset)) * width + (col - wide(v.columns.offset))
}
