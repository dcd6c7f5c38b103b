// Ranges, and little-endian numbers in byte slices.
#![tactic(auto)]

ghost use Rattle.std.specs.Prelude.{◌≡◌, ◌+◌, ◌≤◌, ◌<◌, ◌/◌, ◌%◌, length, get_or};
ghost use Rattle.std.proofs.lemmas.List.Edits.{sets};
ghost use Rattle.numbers.specs.Choice.{between};
ghost use Rattle.numbers.specs.Little.{u16_at, u32_at, u16_bytes, u32_bytes};

// x is from low to high.
pub fn between(low: usize, high: usize, x: usize) -> bool
    ensures { result ≡ between low high x }
{
    if x < low {
        return false;
    }
    x <= high
}

// A byte as a wider number; the bound spares each caller the slice's rule.
pub fn wide(x: u8) -> u16
    ensures { (result ≡ x) × (result < 256) }
{
    x as u16
}

// The element at a place, 0 past the end.
pub fn at(elements: &[u32], place: usize) -> u32
    ensures { result ≡ get_or elements.now place 0 }
{
    if place < elements.len() {
        return elements[place];
    }
    0
}

pub fn u16_at(s: &[u8], at: usize) -> u16
    requires { at + 2 ≤ length s.now }
    ensures { result ≡ u16_at s.now at }
{
    let low = wide(s[at]);
    let high = wide(s[at + 1]);
    low + high * 256
}

pub fn u32_at(s: &[u8], at: usize) -> u32
    requires { at + 4 ≤ length s.now }
    ensures { result ≡ u32_at s.now at }
{
    let low = u16_at(s, at) as u32;
    let high = u16_at(s, at + 2) as u32;
    low + high * 65536
}

fn low_byte(x: u16) -> u8
    ensures { result ≡ x % 256 }
{
    (x % 256) as u8
}

fn high_byte(x: u16) -> u8
    ensures { result ≡ x / 256 }
{
    (x / 256) as u8
}

pub fn put_u16(out: &mut [u8], at: usize, x: u16)
    requires { at + 2 ≤ length out.old }
    ensures { out.new ≡ sets out.old at (u16_bytes x) }
{
    out[at] = low_byte(x);
    out[at + 1] = high_byte(x);
}

pub fn put_u32(out: &mut [u8], at: usize, x: u32)
    requires { at + 4 ≤ length out.old }
    ensures { out.new ≡ sets out.old at (u32_bytes x) }
{
    put_u16(out, at, (x % 65536) as u16);
    put_u16(out, at + 2, (x / 65536) as u16);
}
