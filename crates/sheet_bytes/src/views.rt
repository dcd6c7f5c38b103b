// Views: how many bytes one takes, and writing it from a place of `out` on.
ghost use Rattle.std.specs.Prelude.{◌≡◌, ◌++◌, ◌+◌, ◌≤◌, length};
ghost use Rattle.std.proofs.lemmas.List.Edits.{sets};
ghost use Rattle.sheet.specs.Sizes.{rank_places};
ghost use Rattle.sheet_bytes.specs.Bytes.{entries_bytes, view_dimensions_bytes, clip_bytes, view_bytes, view_field};

use fields::{HEAD, writing};
use sheet::sizes::RANK;
use sheet::{Clip, View, ViewDimension, codes};
use tensor_ranges::views;

// Dimension count and has-dimensions.
const START: usize = 2;

const DIMENSION: usize = 4;

const CLIP: usize = 4;

#[tactic(auto, using(crate::specs::Laws::Lengths::length_view))]
pub fn view_len(v: View) -> u16
    ensures { result ≡ length (view_bytes v) }
{
    let own = views::sized_rank(v.sized, v.rank);
    (START + usize::from(v.rank) + usize::from(own) * DIMENSION + 2 * CLIP) as u16
}

fn put_permutation(out: &mut [u8], at: usize, rank: u8, p: [u8; RANK])
    requires { (rank ≤ rank_places) × (at + length (entries_bytes rank p) ≤ length out.old) }
    ensures { out.new ≡ sets out.old at (entries_bytes rank p) }
{
    let n = usize::from(rank);
    out[at..at + n].copy_from_slice(&p[..n]);
}

#[tactic(auto, using(fields::specs::Laws::Puts::all_turns))]
fn put_view_dimensions(out: &mut [u8], at: usize, count: u8, ds: [ViewDimension; RANK])
    requires { (count ≤ rank_places) × (at + length (view_dimensions_bytes count ds) ≤ length out.old) }
    ensures { out.new ≡ sets out.old at (view_dimensions_bytes count ds) }
{
    let mut p = at;
    for d in &ds[..usize::from(count)] {
        writing::put_u16s(out, p, d.size, d.stride);
        p += DIMENSION;
    }
}

#[tactic(auto, unfolding(crate::specs::Bytes::clip_bytes))]
fn put_clips(out: &mut [u8], at: usize, rows: Clip, columns: Clip)
    requires { at + 8 ≤ length out.old }
    ensures { out.new ≡ sets out.old at (clip_bytes rows ++ clip_bytes columns) }
{
    writing::put_u16s(out, at, rows.offset, rows.span);
    writing::put_u16s(out, at + CLIP, columns.offset, columns.span);
}

#[tactic(auto, using(crate::specs::Laws::Lengths::length_view, crate::specs::Laws::Lengths::length_entries, crate::specs::Laws::Lengths::length_view_dimensions, crate::specs::Laws::Lengths::sized_within), unfolding(crate::specs::Bytes::view_bytes))]
fn put_view_content(out: &mut [u8], at: usize, v: View)
    requires { (v.rank ≤ rank_places) × (at + length (view_bytes v) ≤ length out.old) }
    ensures { out.new ≡ sets out.old at (view_bytes v) }
{
    let own = views::sized_rank(v.sized, v.rank);
    writing::put_pair(out, at, v.rank, codes::flag_code(v.sized));
    put_permutation(out, at + START, v.rank, v.permutation);
    let dimensions = at + START + usize::from(v.rank);
    put_view_dimensions(out, dimensions, own, v.dimensions);
    put_clips(
        out,
        dimensions + DIMENSION * usize::from(own),
        v.rows,
        v.columns,
    );
}

// Returns the place after the field.
#[tactic(auto, using(fields::specs::Laws::Lengths::length_field, fields::specs::Laws::Puts::field_put))]
pub fn put_view(out: &mut [u8], at: usize, v: View) -> usize
    requires { (v.rank ≤ rank_places) × (at + length (view_field v) ≤ length out.old) }
    ensures { (result ≡ at + length (view_field v)) × (out.new ≡ sets out.old at (view_field v)) }
{
    let content = view_len(v);
    writing::put_head(out, at, codes::VIEW_TAG, content);
    put_view_content(out, at + HEAD, v);
    at + writing::field_len(content)
}
