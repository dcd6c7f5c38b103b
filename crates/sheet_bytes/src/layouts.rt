// Layouts: how many bytes one takes, and writing it from a place of `out` on.
ghost use Rattle.std.specs.Prelude.{◌≡◌, ◌+◌, ◌≤◌, length};
ghost use Rattle.std.proofs.lemmas.List.Edits.{sets};
ghost use Rattle.sheet.specs.Sizes.{rank_places};
ghost use Rattle.sheet_bytes.specs.Bytes.{dimension_bytes, dimensions_bytes, layout_bytes, layout_field};

use fields::{HEAD, writing};
use sheet::sizes::RANK;
use sheet::{Dimension, Layout, codes};

// Dimension count, clamp mode and clamp value.
const START: usize = 6;

const DIMENSION: usize = 10;

#[tactic(auto, using(crate::specs::Laws::Lengths::length_layout))]
pub fn layout_len(l: Layout) -> u16
    ensures { result ≡ length (layout_bytes l) }
{
    (START + usize::from(l.rank) * DIMENSION) as u16
}

#[tactic(auto, unfolding(crate::specs::Bytes::dimension_bytes))]
fn put_dimension(out: &mut [u8], at: usize, d: Dimension)
    requires { at + 10 ≤ length out.old }
    ensures { out.new ≡ sets out.old at (dimension_bytes d) }
{
    writing::put_u16s(out, at, d.block, d.size);
    writing::put_u16s(out, at + 4, d.stride, d.offset);
    numbers::put_u16(out, at + 8, d.span);
}

#[tactic(auto, using(fields::specs::Laws::Puts::all_turns))]
fn put_dimensions(out: &mut [u8], at: usize, rank: u8, ds: [Dimension; RANK])
    requires { (rank ≤ rank_places) × (at + length (dimensions_bytes rank ds) ≤ length out.old) }
    ensures { out.new ≡ sets out.old at (dimensions_bytes rank ds) }
{
    let mut p = at;
    for d in &ds[..usize::from(rank)] {
        put_dimension(out, p, *d);
        p += DIMENSION;
    }
}

#[tactic(auto, using(crate::specs::Laws::Lengths::length_layout, crate::specs::Laws::Lengths::length_dimensions), unfolding(crate::specs::Bytes::layout_bytes))]
fn put_layout_content(out: &mut [u8], at: usize, l: Layout)
    requires { (l.rank ≤ rank_places) × (at + length (layout_bytes l) ≤ length out.old) }
    ensures { out.new ≡ sets out.old at (layout_bytes l) }
{
    writing::put_pair(out, at, l.rank, codes::clamp_code(l.mode));
    numbers::put_u32(out, at + 2, l.clamp);
    put_dimensions(out, at + START, l.rank, l.dimensions);
}

// Returns the place after the field.
#[tactic(auto, using(fields::specs::Laws::Lengths::length_field, fields::specs::Laws::Puts::field_put))]
pub fn put_layout(out: &mut [u8], at: usize, l: Layout) -> usize
    requires { (l.rank ≤ rank_places) × (at + length (layout_field l) ≤ length out.old) }
    ensures { (result ≡ at + length (layout_field l)) × (out.new ≡ sets out.old at (layout_field l)) }
{
    let content = layout_len(l);
    writing::put_head(out, at, codes::LAYOUT_TAG, content);
    put_layout_content(out, at + HEAD, l);
    at + writing::field_len(content)
}
