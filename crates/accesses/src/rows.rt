// The elements of a load or a store without a view, row by row of the layout's last dimension.
ghost use Rattle.std.specs.Prelude.{◌≡◌, true, false, ℕ, ◌+◌, ◌-◌, ◌*◌, ◌≤◌, ◌<◌, negsuc, length};
ghost use Rattle.numbers.specs.Lists.{line};
ghost use Rattle.sheet.specs.Sizes.{matrix_places, rank_places};
ghost use Rattle.dimensions.specs.Dimensions.{part_limit};
ghost use Rattle.clamps.specs.Clamps.{outside};
ghost use Rattle.clamps.specs.declared.Clamped.TheVariants.{At};
ghost use Rattle.addressing.specs.Rules.{elements_of};
ghost use Rattle.addressing.specs.Rows.{Out, Inside};
ghost use Rattle.addressing.specs.Valid.{Planned, AtMost};
ghost use Rattle.accesses.specs.Refusals.{element_outcome};
ghost use Rattle.accesses.specs.Entries.{Surveyed};
ghost use Rattle.accesses.specs.Rows.{Passed, Went, Row, Shared, Even, same_entry_of, far_of};

use crate::Tally;
use addressing::rows::Inner;
use addressing::{Access, Plan};
use clamps::{Clamped, Coordinate};
use clashes::{DISCARDED, FILLED};
use refusals::{OUTSIDE_UNDEFINED, Stop};
use sheet::sizes::PLACES;
use sheet::{ClampMode, Dimension};
use view_indices::wide;

// Entries of n elements from place `at` on that have the same outcome.
fn put_same(entries: &mut [u32; PLACES], value: u32, at: usize, n: usize)
    requires { (length entries.old ≡ matrix_places) × (at + n ≤ matrix_places) }
    ensures { entries.new ≡ line entries.old at (λ _. value) n }
{
    // Not `fill`: with it a check of stores whose rows end outside takes 7 in 100 more instructions.
    for i in 0..n {
        entries[at + i] = value;
    }
}

// Entries of n elements from place `at` on whose bytes rise by a step.
fn put_even(entries: &mut [u32; PLACES], byte: u32, step: u32, at: usize, n: u32)
    requires { (length entries.old ≡ matrix_places) × (at + n ≤ matrix_places) × (byte + n * step < 4294967295) }
    ensures { entries.new ≡ line entries.old at (λ i. byte + i * step + 1) n }
{
    for i in 0..n {
        entries[at + i as usize] = byte + i * step + 1;
    }
}

fn stopped(number: u8, element: usize, placed: usize) -> Tally
    ensures { (result.stop.number ≡ number) × (result.stop.element ≡ element) × (result.placed ≡ placed) }
{
    Tally {
        stop: Stop { number, element },
        placed,
    }
}

// The elements of a row from span coordinate `from` to before `to`, each by itself.
fn survey_cells(
    entries: &mut [u32; PLACES],
    a: Access,
    x: Dimension,
    fill: u32,
    t: u32,
    k: usize,
    from: usize,
    to: usize,
    before: usize,
) -> Tally
    requires shared { Shared a x fill × (t ≤ (rank_places - 1) * part_limit) × Row a (At t) k to × (from ≤ to) }
    requires passed { Passed (element_outcome a) (elements_of a) (k + from) before entries.old }
    ensures { Went (element_outcome a) (elements_of a) (k + to) result entries.new }
{
    let mut placed = before;
    for s in from..to {
        let r = addressing::rows::cell(a, x, fill, t, s as u32);
        if r.refusal != 0 {
            return stopped(r.refusal, k + s, placed);
        }
        entries[k + s] = crate::entry(r.outcome);
        placed += crate::placed_one(r.outcome);
    }
    stopped(0, 0, placed)
}

// Whether n elements from a byte on, one step after the other, have all their bytes in memory, and blocks of 1 have them so.
fn is_even(block: u16, size: usize, memory: usize, byte: usize, step: usize, n: usize) -> bool
    requires { (size ≤ 4) × (n ≤ matrix_places) × (byte < 17179869184) × (step ≤ 262144) }
    ensures { result ≡ true → Even block size memory byte step n }
{
    block == 1 && 0 < n && byte + (n - 1) * step + size <= memory
}

// The elements of a row that are inside the last dimension.
fn survey_inside(
    entries: &mut [u32; PLACES],
    a: Access,
    x: Dimension,
    inner: Inner,
    fill: u32,
    t: u32,
    k: usize,
    from: usize,
    to: usize,
    placed: usize,
) -> Tally
    requires shared { Shared a x fill × (t ≤ (rank_places - 1) * part_limit) × Row a (At t) k to × Inside x inner × (from ≤ to) × (to ≤ inner.to) × (from < to → from ≡ inner.from) }
    requires passed { Passed (element_outcome a) (elements_of a) (k + from) placed entries.old }
    ensures { Went (element_outcome a) (elements_of a) (k + to) result entries.new }
{
    if to <= from {
        return stopped(0, 0, placed);
    }
    let n = to - from;
    let stride = wide(x.stride) as usize;
    let byte = a.base as usize + (t as usize + inner.first as usize * stride) * a.size;
    let step = stride * a.size;
    if is_even(x.block, a.size, a.memory, byte, step, n) {
        put_even(entries, byte as u32, step as u32, k + from, n as u32);
        return stopped(0, 0, placed + n);
    }
    survey_cells(entries, a, x, fill, t, k, from, to, placed)
}

// The entry of every element outside the last dimension, or 0 where each has to be looked at.
fn far_entry(load: bool, mode: ClampMode) -> u32
    ensures { result ≡ same_entry_of (outside load mode (negsuc 0) 1) }
{
    match clamps::outside(load, mode, Coordinate::Below(0), 1) {
        Clamped::Refused => 0,
        Clamped::Discarded => DISCARDED,
        Clamped::Filled => FILLED,
        Clamped::At(_) => 0,
    }
}

// The elements of a row from span coordinate `from` to before `to`, which are outside the last dimension.
fn survey_outside(
    entries: &mut [u32; PLACES],
    a: Access,
    x: Dimension,
    far: u32,
    fill: u32,
    t: u32,
    k: usize,
    from: usize,
    to: usize,
    placed: usize,
) -> Tally
    requires shared { Shared a x fill × (t ≤ (rank_places - 1) * part_limit) × Row a (At t) k to × (from ≤ to) × (far ≡ far_of a) × ((s : ℕ) → from ≤ s → s < to → Out x s) }
    requires passed { Passed (element_outcome a) (elements_of a) (k + from) placed entries.old }
    ensures { Went (element_outcome a) (elements_of a) (k + to) result entries.new }
{
    if 0 < far {
        put_same(entries, far, k + from, to - from);
        return stopped(0, 0, placed);
    }
    survey_cells(entries, a, x, fill, t, k, from, to, placed)
}

// The elements of a row to which the dimensions before the last add t: those before, at and behind the places of the last dimension.
fn survey_at(
    entries: &mut [u32; PLACES],
    a: Access,
    x: Dimension,
    inner: Inner,
    far: u32,
    fill: u32,
    t: u32,
    k: usize,
    n: usize,
    placed: usize,
) -> Tally
    requires shared { Shared a x fill × (t ≤ (rank_places - 1) * part_limit) × Row a (At t) k n × Inside x inner × (far ≡ far_of a) }
    requires passed { Passed (element_outcome a) (elements_of a) k placed entries.old }
    ensures { Went (element_outcome a) (elements_of a) (k + n) result entries.new }
{
    let from = n.min(inner.from as usize);
    let to = n.min(inner.to as usize);
    let low = survey_outside(entries, a, x, far, fill, t, k, 0, from, placed);
    if low.stop.number != 0 {
        return low;
    }
    let middle = survey_inside(entries, a, x, inner, fill, t, k, from, to, low.placed);
    if middle.stop.number != 0 {
        return middle;
    }
    survey_outside(entries, a, x, far, fill, t, k, to, n, middle.placed)
}

// The n elements of a row from element k on, by what the dimensions before the last give for all of them.
fn survey_row(
    entries: &mut [u32; PLACES],
    a: Access,
    x: Dimension,
    inner: Inner,
    far: u32,
    fill: u32,
    before: Clamped,
    k: usize,
    n: usize,
    placed: usize,
) -> Tally
    requires shared { Shared a x fill × AtMost ((rank_places - 1) * part_limit) before × Row a before k n × Inside x inner × (0 < n) × (far ≡ far_of a) }
    requires passed { Passed (element_outcome a) (elements_of a) k placed entries.old }
    ensures { Went (element_outcome a) (elements_of a) (k + n) result entries.new }
{
    match before {
        Clamped::Refused => stopped(OUTSIDE_UNDEFINED, k, placed),
        Clamped::Discarded => {
            put_same(entries, DISCARDED, k, n);
            stopped(0, 0, placed)
        }
        Clamped::Filled => {
            put_same(entries, FILLED, k, n);
            stopped(0, 0, placed)
        }
        Clamped::At(t) => survey_at(entries, a, x, inner, far, fill, t, k, n, placed),
    }
}

// Every element is outside the last dimension, and all have the same entry.
fn is_far(far: u32, from: u32, to: u32, span: u32) -> bool
    ensures { result ≡ true → (0 < far) × ((s : ℕ) → s < span → from ≤ s → to ≤ s) }
{
    0 < far && (to <= from || span <= from)
}

// The elements in order, up to the first that is refused, and each one's entry.
pub fn survey_rows(entries: &mut [u32; PLACES], p: Plan) -> Tally
    requires { Planned p × (length entries.old ≡ matrix_places) × (p.access.viewed ≡ false) × (0 < p.tail.rank) }
    ensures { Surveyed (element_outcome p.access) (elements_of p.access) result entries.new }
{
    let a = p.access;
    let numbers = p.numbers;
    let x = addressing::rows::last_dimension(p, &numbers);
    let span = usize::from(x.span);
    let inner = addressing::rows::inner_of(x);
    let far = far_entry(a.load, a.layout.mode);
    if is_far(far, inner.from, inner.to, wide(x.span)) {
        put_same(entries, far, 0, p.count);
        return stopped(0, 0, 0);
    }
    let mut placed: usize = 0;
    let mut row: u32 = 0;
    let mut k: usize = 0;
    // No `for`: k goes on by a row's elements, of which the last row may have fewer.
    while k < p.count {
        let n = span.min(p.count - k);
        let before = addressing::rows::row_start(p, &numbers, row);
        let r = survey_row(entries, a, x, inner, far, p.fill, before, k, n, placed);
        if r.stop.number != 0 {
            return r;
        }
        placed = r.placed;
        row += 1;
        k += n;
    }
    stopped(0, 0, placed)
}
