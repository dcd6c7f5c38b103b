// Elements between registers and memory.
#![tactic(auto)]

ghost use Rattle.std.specs.Prelude.{◌≡◌, ◌<◌, ◌^◌, length};
ghost use Rattle.sheet.specs.Sizes.{register_count, matrix_places};
ghost use Rattle.addressing.specs.Valid.{Planned};
ghost use Rattle.kinds.specs.Laws.Widths.{ElementSize};
ghost use Rattle.accesses.specs.Refusals.{access_refusal};
ghost use Rattle.counts.specs.Counts.{more_placed};
ghost use Rattle.counts.specs.declared.Counts.{Counts};
ghost use Rattle.transfers.specs.Acts.{state, loaded, stored, Inside};
ghost use Rattle.transfers.specs.Transfers.{loaded_elements, stored_elements};

use addressing::Plan;
use counts::Counts;
use outcomes::Outcome;
use sheet::sizes::{ELEMENTS, PLACES};

// One element of a load. The answer is how many elements had a byte, with this one.
pub fn load_element(
    elements: &mut [u32; ELEMENTS],
    memory: &[u8],
    size: usize,
    register: u8,
    element: usize,
    o: Outcome,
    placed: usize,
) -> usize
    requires register_lt_register_count { (register < register_count) × (element < matrix_places) × (placed < 2 ^ 32) × ElementSize size }
    requires inside { Inside size (length memory.now) o }
    ensures { (c : Counts) → state elements.new memory.now (more_placed c result) ≡ loaded size register element o (state elements.old memory.now (more_placed c placed)) }
{
    match o {
        Outcome::Skipped | Outcome::Discarded => placed,
        Outcome::Filled(bits) => {
            registers::put_element_of(elements, register, element, bits);
            placed
        }
        Outcome::Placed(byte) => {
            let x = memory::element_at(memory, byte, size);
            registers::put_element_of(elements, register, element, x);
            placed + 1
        }
    }
}

// One element of a store. The answer is how many elements had a byte, with this one.
pub fn store_element(
    elements: &[u32; ELEMENTS],
    memory: &mut [u8],
    size: usize,
    register: u8,
    element: usize,
    o: Outcome,
    placed: usize,
) -> usize
    requires register_lt_register_count { (register < register_count) × (element < matrix_places) × (placed < 2 ^ 32) × ElementSize size }
    requires inside { Inside size (length memory.old) o }
    ensures { (c : Counts) → state elements.now memory.new (more_placed c result) ≡ stored size register element o (state elements.now memory.old (more_placed c placed)) }
{
    match o {
        Outcome::Skipped | Outcome::Filled(_) | Outcome::Discarded => placed,
        Outcome::Placed(byte) => {
            let x = registers::element_of(elements, register, element);
            memory::put_element(memory, byte, size, x);
            placed + 1
        }
    }
}

// The elements of a load that is not refused. The answer counts each element that had a byte. The entries are lent room.
#[tactic(auto, using(crate::proofs::Laws::Elements::transferred_start, addressing::specs::Laws::Plans::plan_count))]
pub fn load_elements(
    elements: &mut [u32; ELEMENTS],
    memory: &[u8],
    entries: &mut [u32; PLACES],
    p: Plan,
    register: u8,
    counted: Counts,
) -> Counts
    requires planned { Planned p × ((access_refusal p.access).number ≡ 0) × (p.access.memory ≡ length memory.now) }
    requires register_lt_register_count { (register < register_count) × (counted.placed < 2 ^ 31) × (length entries.old ≡ matrix_places) }
    ensures entries_len { length entries.new ≡ matrix_places }
    ensures result_after { state elements.new memory.now result ≡ loaded_elements p.access register (state elements.old memory.now counted) }
{
    accesses::survey(entries, p);
    let mut placed = 0;
    for (k, &entry) in entries[..p.count].iter().enumerate() {
        let o = accesses::outcome_of(entry, p.fill);
        placed = load_element(elements, memory, p.access.size, register, k, o, placed);
    }
    counts::more_placed(counted, placed)
}

// The elements of a store that is not refused. The answer counts each element that had a byte. The entries are lent room.
#[tactic(auto, using(crate::proofs::Laws::Elements::transferred_start, addressing::specs::Laws::Plans::plan_count))]
pub fn store_elements(
    elements: &[u32; ELEMENTS],
    memory: &mut [u8],
    entries: &mut [u32; PLACES],
    p: Plan,
    register: u8,
    counted: Counts,
) -> Counts
    requires planned { Planned p × ((access_refusal p.access).number ≡ 0) × (p.access.memory ≡ length memory.old) }
    requires register_lt_register_count { (register < register_count) × (counted.placed < 2 ^ 31) × (length entries.old ≡ matrix_places) }
    ensures entries_len { length entries.new ≡ matrix_places }
    ensures result_after { state elements.now memory.new result ≡ stored_elements p.access register (state elements.now memory.old counted) }
{
    accesses::survey(entries, p);
    let mut placed = 0;
    for (k, &entry) in entries[..p.count].iter().enumerate() {
        let o = accesses::outcome_of(entry, p.fill);
        placed = store_element(elements, memory, p.access.size, register, k, o, placed);
    }
    counts::more_placed(counted, placed)
}
