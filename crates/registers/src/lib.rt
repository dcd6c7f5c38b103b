// The four registers: a type each, and their elements in one array.
#![tactic(auto)]

pub mod blocks;

ghost use Rattle.std.specs.Prelude.{◌≡◌, ℕ, ◌+◌, ◌*◌, ◌<◌, ◌≤◌, get_or};
ghost use Rattle.sheet.specs.Sizes.{register_count, matrix_places};
ghost use Rattle.registers.specs.Types.{no_type, the_type, is_empty, with_type};
ghost use Rattle.registers.specs.Registers.{place_of, element_of, with_element_of, filled_elements, empty_registers};
ghost use Rattle.registers.specs.Past.{written_to};
ghost use Rattle.registers.specs.Sized.{SizedType};

use sheet::sizes::{ELEMENTS, PLACES, REGISTERS};

// Kind and sides of a matrix. Rows 0: the register is empty, and all three are 0.
#[derive(Clone, Copy)]
pub struct MatrixType {
    pub kind: u8,
    pub rows: u8,
    pub columns: u8,
}

// Register r's element number e stands at place PLACES * r + e. Places past a register's matrix are 0, so equal registers are
// equal structs. Jobs lend the elements and return the types.
#[derive(Clone, Copy)]
pub struct Registers {
    pub types: [MatrixType; REGISTERS],
    pub elements: [u32; ELEMENTS],
}

pub fn no_type() -> MatrixType
    ensures { result ≡ no_type }
{
    MatrixType {
        kind: 0,
        rows: 0,
        columns: 0,
    }
}

// The types of empty registers.
#[tactic(auto, unfolding(crate::specs::Registers::empty_registers))]
pub fn empty_types() -> [MatrixType; REGISTERS]
    ensures { result ≡ empty_registers.types }
{
    [no_type(); REGISTERS]
}

// The elements of empty registers: one array of zeros.
#[tactic(auto, unfolding(crate::specs::Registers::empty_registers))]
pub fn empty_elements(elements: &mut [u32; ELEMENTS])
    ensures { elements.new ≡ empty_registers.elements }
{
    *elements = [0u32; ELEMENTS];
}

pub fn is_empty(t: MatrixType) -> bool
    ensures { result ≡ is_empty t }
{
    t.rows == 0
}

pub fn the_type(types: [MatrixType; REGISTERS], register: u8) -> MatrixType
    requires { register < register_count }
    ensures { result ≡ the_type types register }
{
    types[usize::from(register)]
}

pub fn with_type(
    types: [MatrixType; REGISTERS],
    register: u8,
    t: MatrixType,
) -> [MatrixType; REGISTERS]
    requires { register < register_count }
    ensures { result ≡ with_type types register t }
{
    let mut out = types;
    out[usize::from(register)] = t;
    out
}

// How many elements a matrix has.
pub fn element_count(t: MatrixType) -> usize
    requires { SizedType t }
    ensures { (result ≡ t.rows * t.columns) × (result ≤ matrix_places) }
{
    usize::from(t.rows) * usize::from(t.columns)
}

// Where an element of a register stands.
pub fn place_of(register: u8, element: usize) -> usize
    requires { (register < register_count) × (element < matrix_places) }
    ensures { result ≡ place_of register element }
{
    PLACES * usize::from(register) + element
}

pub fn element_of(elements: &[u32; ELEMENTS], register: u8, element: usize) -> u32
    requires { (register < register_count) × (element < matrix_places) }
    ensures { result ≡ element_of elements.now register element }
{
    elements[place_of(register, element)]
}

pub fn put_element_of(elements: &mut [u32; ELEMENTS], register: u8, element: usize, x: u32)
    requires { (register < register_count) × (element < matrix_places) }
    ensures { elements.new ≡ with_element_of elements.old register element x }
{
    elements[place_of(register, element)] = x;
}

// A matrix of `count` elements is written over one of `old`: a register's first places made those of a block, and what the old
// matrix had past them made 0.
pub fn put_block(
    elements: &mut [u32; ELEMENTS],
    register: u8,
    block: &[u32; PLACES],
    count: usize,
    old: usize,
)
    requires { (register < register_count) × (count ≤ matrix_places) × (old ≤ matrix_places) }
    ensures { elements.new ≡ written_to elements.old register (λ (e : ℕ). get_or block.now e 0) count old }
{
    let base = place_of(register, 0);
    // Not `copy_from_slice`, for which an archive would need memmove from outside.
    for e in 0..count {
        elements[base + e] = block[e];
    }
    fill_elements(elements, register, count, old.saturating_sub(count), 0);
}

// The same with the elements of another register, or of the same.
pub fn copy_elements(
    elements: &mut [u32; ELEMENTS],
    register: u8,
    source: u8,
    count: usize,
    old: usize,
)
    requires { (register < register_count) × (source < register_count) × (count ≤ matrix_places) × (old ≤ matrix_places) }
    ensures { elements.new ≡ written_to elements.old register (element_of elements.old source) count old }
{
    let to = place_of(register, 0);
    let from = place_of(source, 0);
    elements.copy_within(from..from + count, to);
    fill_elements(elements, register, count, old.saturating_sub(count), 0);
}

// Elements of a register, from the first on, given a value.
pub fn fill_elements(
    elements: &mut [u32; ELEMENTS],
    register: u8,
    first: usize,
    count: usize,
    value: u32,
)
    requires { (register < register_count) × (first + count ≤ matrix_places) }
    ensures { elements.new ≡ filled_elements elements.old register first count value }
{
    let start = place_of(register, 0) + first;
    // Not `fill`, with which a fill of 16 elements takes more than twice the instructions.
    for i in 0..count {
        elements[start + i] = value;
    }
}
