// Elements without a view, row by row: their numbers have the same quotient by the last span, so that all dimensions but the last add the same.
ghost use Rattle.std.specs.Prelude.{◌≡◌, ◌-◌, ◌*◌, ◌≤◌, ◌<◌};
ghost use Rattle.tensor_ranges.specs.Laws.Facts.{InSize};
ghost use Rattle.sheet.specs.Sizes.{rank_places, size_limit};
ghost use Rattle.dimensions.specs.Dimensions.{part_limit};
ghost use Rattle.clamps.specs.declared.Clamped.TheVariants.{At};
ghost use Rattle.addressing.specs.Rules.{low_bits};
ghost use Rattle.addressing.specs.Rows.{up_to, last_of, cell_of, Inside};
ghost use Rattle.addressing.specs.Valid.{ValidAccess, Planned, AtMost};

use crate::{Access, Located, Plan};
use clamps::Clamped;
use dimensions::{LAYOUT_NUMBERS, dimension_at};
use outcomes::Outcome;
use refusals::OUTSIDE_UNDEFINED;
use sheet::Dimension;
use view_indices::wide;

// What all dimensions but the last add for the elements of a row.
pub fn row_start(p: Plan, numbers: &[u16; LAYOUT_NUMBERS], row: u32) -> Clamped
    requires { Planned p × (numbers.now ≡ p.numbers) × (0 < p.tail.rank) }
    ensures { (result ≡ up_to p.access.load p.access.layout (p.access.layout.rank - 1) row) × AtMost ((rank_places - 1) * part_limit) result }
{
    let rank = usize::from(p.tail.rank) - 1;
    crate::tensors::row_index(p.access.load, p.access.layout, numbers, p.tail, rank, row)
}

pub fn last_dimension(p: Plan, numbers: &[u16; LAYOUT_NUMBERS]) -> Dimension
    requires { Planned p × (numbers.now ≡ p.numbers) × (0 < p.tail.rank) }
    ensures { (result ≡ last_of p.access.layout) × InSize result.span × InSize result.size }
{
    dimension_at(numbers, usize::from(p.tail.rank) - 1)
}

// Rules 4 and 5 for the element at span coordinate s of a row, to which the dimensions before the last add t.
#[tactic(auto, using(crate::proofs::Laws::last_size, crate::proofs::Laws::last_block, crate::proofs::Laws::cell_is))]
pub fn cell(a: Access, x: Dimension, fill: u32, t: u32, s: u32) -> Located
    requires { ValidAccess a × (x ≡ last_of a.layout) × (fill ≡ low_bits a) × (s < size_limit) × (t ≤ (rank_places - 1) * part_limit) }
    ensures { result ≡ cell_of a (At t) s }
{
    match crate::tensors::part(a.load, a.layout.mode, x, s) {
        Clamped::Refused => crate::refuse(OUTSIDE_UNDEFINED),
        Clamped::Discarded => crate::answer(Outcome::Discarded),
        Clamped::Filled => crate::answer(Outcome::Filled(fill)),
        Clamped::At(y) => crate::address(a, t + y),
    }
}

// The span coordinates of a dimension at which the coordinate is inside: from `from` on, where it is `first`, to before `to`.
#[derive(Clone, Copy)]
pub struct Inner {
    pub from: u32,
    pub to: u32,
    pub first: u32,
}

pub fn inner_of(x: Dimension) -> Inner
    requires { InSize x.size }
    ensures { Inside x result }
{
    let size = wide(x.size);
    let raw = wide(x.offset);
    if raw < 32768 {
        return Inner {
            from: 0,
            to: size.saturating_sub(raw),
            first: raw,
        };
    }
    let back = 65536 - raw;
    Inner {
        from: back,
        to: back + size,
        first: 0,
    }
}
