// Little-endian elements in memory.
#![tactic(auto)]

ghost use Rattle.std.specs.Prelude.{◌≡◌, ◌+◌, ◌≤◌, length};
ghost use Rattle.kinds.specs.Laws.Widths.{ElementSize};
ghost use Rattle.memory.specs.Elements.{element_at, with_element};

// The element of `size` bytes from `byte` on.
pub fn element_at(memory: &[u8], byte: usize, size: usize) -> u32
    requires { ElementSize size × (byte + size ≤ length memory.now) }
    ensures { result ≡ element_at memory.now byte size }
{
    if size < 2 {
        return numbers::wide(memory[byte]) as u32;
    }
    if size < 3 {
        return numbers::u16_at(memory, byte) as u32;
    }
    numbers::u32_at(memory, byte)
}

// The lowest `size` bytes of x written from `byte` on.
pub fn put_element(memory: &mut [u8], byte: usize, size: usize, x: u32)
    requires { ElementSize size × (byte + size ≤ length memory.old) }
    ensures { memory.new ≡ with_element memory.old byte size x }
{
    if size < 2 {
        memory[byte] = (x % 256) as u8;
        return;
    }
    if size < 3 {
        numbers::put_u16(memory, byte, (x % 65536) as u16);
        return;
    }
    numbers::put_u32(memory, byte, x);
}
