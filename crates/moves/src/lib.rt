// Takes, puts and fills: elements moved as a record says.
#![tactic(auto)]

ghost use Rattle.std.specs.Prelude.{◌≡◌, true, List, ℕ, ◌+◌, ◌*◌, ◌<◌, ◌≤◌, length};
ghost use Rattle.numbers.specs.Orders.{in_order};
ghost use Rattle.kinds.specs.Laws.Widths.{ElementSize};
ghost use Rattle.sheet.specs.Sizes.{register_count, matrix_places};
ghost use Rattle.registers.specs.Sized.{Sized};
ghost use Rattle.registers.specs.Types.{the_type};
ghost use Rattle.counts.specs.Counts.{more_placed};
ghost use Rattle.counts.specs.declared.Counts.{Counts};
ghost use Rattle.transfers.specs.Acts.{state};
ghost use Rattle.carrying.specs.Steps.{machine_of};
ghost use Rattle.records.specs.Ranges.{Elements, Bytes};
ghost use Rattle.judging.specs.Records.{byte_at, bytes_inside, bytes_record_ok, fill_record_ok};
ghost use Rattle.moves.specs.Elements.{taking, putting, filling, on_elements};

use registers::MatrixType;
use sheet::sizes::{ELEMENTS, REGISTERS};

#[tactic(auto, using(judging::specs::Laws::Elements::stride_small, judging::specs::Laws::Bytes::byte_natural))]
fn byte_at(byte: usize, up: usize, down: usize, i: usize) -> usize
    requires { Bytes byte up down × (i < matrix_places) × (i * down ≤ byte + i * up) }
    ensures { result ≡ byte_at byte up down i }
{
    byte + i * up - i * down
}

#[tactic(auto, using(judging::specs::Laws::Elements::inside_lies, crate::specs::Laws::Elements::order_start))]
fn take_elements(
    elements: &mut [u32; ELEMENTS],
    memory: &[u8],
    size: usize,
    register: u8,
    first: usize,
    count: usize,
    byte: usize,
    up: usize,
    down: usize,
)
    requires element_size { ElementSize size × (register < register_count) × (first + count ≤ matrix_places) × Bytes byte up down }
    requires down_value { bytes_inside size (length memory.now) count byte up down ≡ true }
    ensures { (c : Counts) → state elements.new memory.now (more_placed c count) ≡ in_order (taking size register first byte up down) count (state elements.old memory.now c) }
{
    for i in 0..count {
        let at = byte_at(byte, up, down, i);
        let x = memory::element_at(memory, at, size);
        registers::put_element_of(elements, register, first + i, x);
    }
}

#[tactic(auto, using(judging::specs::Laws::Elements::inside_lies, crate::specs::Laws::Elements::order_start))]
fn put_elements(
    elements: &[u32; ELEMENTS],
    memory: &mut [u8],
    size: usize,
    register: u8,
    first: usize,
    count: usize,
    byte: usize,
    up: usize,
    down: usize,
)
    requires element_size { ElementSize size × (register < register_count) × (first + count ≤ matrix_places) × Bytes byte up down }
    requires down_value { bytes_inside size (length memory.old) count byte up down ≡ true }
    ensures { (c : Counts) → state elements.now memory.new (more_placed c count) ≡ in_order (putting size register first byte up down) count (state elements.now memory.old c) }
{
    for i in 0..count {
        let at = byte_at(byte, up, down, i);
        let x = registers::element_of(elements, register, first + i);
        memory::put_element(memory, at, size, x);
    }
}

// A take, which changes elements alone.
#[tactic(auto, using(judging::specs::Laws::Elements::elements_fit, judging::specs::Laws::Elements::bytes_elements, judging::specs::Laws::Elements::bytes_inside_lem, kinds::specs::Laws::Widths::bytes_size))]
pub fn take(
    types: [MatrixType; REGISTERS],
    elements: &mut [u32; ELEMENTS],
    memory: &[u8],
    register: u8,
    first: usize,
    count: usize,
    byte: usize,
    up: usize,
    down: usize,
)
    requires sized { Sized types × Elements register first count × Bytes byte up down }
    requires down_value { bytes_record_ok (the_type types register) (length memory.now) first count byte up down ≡ true }
    ensures { (c : Counts) → machine_of types (state elements.new memory.now (more_placed c count)) ≡ on_elements register (λ (size : ℕ). taking size register first byte up down) count (machine_of types (state elements.old memory.now c)) }
{
    let t = registers::the_type(types, register);
    take_elements(
        elements,
        memory,
        kinds::bytes(t.kind),
        register,
        first,
        count,
        byte,
        up,
        down,
    );
}

// A put, which changes memory alone.
#[tactic(auto, using(judging::specs::Laws::Elements::elements_fit, judging::specs::Laws::Elements::bytes_elements, judging::specs::Laws::Elements::bytes_inside_lem, kinds::specs::Laws::Widths::bytes_size))]
pub fn put(
    types: [MatrixType; REGISTERS],
    elements: &[u32; ELEMENTS],
    memory: &mut [u8],
    register: u8,
    first: usize,
    count: usize,
    byte: usize,
    up: usize,
    down: usize,
)
    requires sized { Sized types × Elements register first count × Bytes byte up down }
    requires down_value { bytes_record_ok (the_type types register) (length memory.old) first count byte up down ≡ true }
    ensures { (c : Counts) → machine_of types (state elements.now memory.new (more_placed c count)) ≡ on_elements register (λ (size : ℕ). putting size register first byte up down) count (machine_of types (state elements.now memory.old c)) }
{
    let t = registers::the_type(types, register);
    put_elements(
        elements,
        memory,
        kinds::bytes(t.kind),
        register,
        first,
        count,
        byte,
        up,
        down,
    );
}

// A fill, which changes elements alone.
#[tactic(auto, using(judging::specs::Laws::Elements::elements_fit, judging::specs::Laws::Elements::fill_elements, crate::specs::Laws::Elements::fill_order))]
pub fn fill(
    types: [MatrixType; REGISTERS],
    elements: &mut [u32; ELEMENTS],
    register: u8,
    first: usize,
    count: usize,
    value: u32,
)
    requires sized { Sized types × Elements register first count }
    requires value_value { fill_record_ok (the_type types register) first count value ≡ true }
    ensures { (memory : List ℕ) (c : Counts) → machine_of types (state elements.new memory c) ≡ on_elements register (λ (size : ℕ). filling register first value) count (machine_of types (state elements.old memory c)) }
{
    registers::fill_elements(elements, register, first, count, value);
}
