// The element kinds 0 to 5.
#![tactic(auto)]

pub mod interpretations;

ghost use Rattle.std.specs.Prelude.{◌≡◌, ◌+◌, ◌-◌, ◌*◌, ◌<◌, ◌%◌, ◌^◌};
ghost use Rattle.std.specs.Int.Signed.{le_z};
ghost use Rattle.kinds.specs.Widths.{kind_ok, word_kind, width, bytes_of, fits};
ghost use Rattle.kinds.specs.Values.{signed, negative, taken, value};
ghost use Rattle.numbers.specs.Remainders.{remainder};

pub const U8: u8 = 0;

pub const S8: u8 = 1;

pub const U32: u8 = 4;

const S32: u8 = 5;

pub fn kind_ok(kind: u8) -> bool
    ensures { result ≡ kind_ok kind }
{
    kind <= 5
}

// The kinds of 32 bits, which sums of products are of.
pub fn word_kind(kind: u8) -> bool
    ensures { result ≡ word_kind kind }
{
    numbers::between(U32 as usize, S32 as usize, kind as usize)
}

// The bytes of an element.
pub fn bytes(kind: u8) -> usize
    ensures { result ≡ bytes_of kind }
{
    if kind < 2 {
        return 1;
    }
    if kind < 4 {
        return 2;
    }
    4
}

// 2 to the width: sums of the kind wrap there.
pub fn modulus(kind: u8) -> u64
    ensures { result ≡ 2 ^ width kind }
{
    if kind < 2 {
        return 256;
    }
    if kind < 4 {
        return 65536;
    }
    4294967296
}

// x is the raw bits of an element of the kind.
pub fn fits(kind: u8, x: u32) -> bool
    ensures { result ≡ fits kind x }
{
    (x as u64) < modulus(kind)
}

pub fn signed(kind: u8) -> bool
    ensures { result ≡ signed kind }
{
    kind % 2 == 1
}

// The top bit is set, in a signed kind.
fn negative(kind: u8, x: u32) -> bool
    ensures { result ≡ negative kind x }
{
    if !signed(kind) {
        return false;
    }
    modulus(kind) <= 2 * (x as u64)
}

// What the sign takes off the raw bits.
fn taken(kind: u8, x: u32) -> u64
    ensures { result ≡ taken kind x }
{
    if negative(kind, x) {
        return modulus(kind);
    }
    0
}

// The value of raw bits plus 2^32, which is never below zero.
pub fn raised(kind: u8, x: u32) -> u64
    ensures { result ≡ x + (2 ^ 32 - taken kind x) }
{
    x as u64 + (4294967296 - taken(kind, x))
}

// a's value is at most b's.
pub fn ordered(kind: u8, a: u32, b: u32) -> bool
    ensures { result ≡ le_z (value kind a) (value kind b) }
{
    raised(kind, a) <= raised(kind, b)
}

// The value of raw bits modulo 2^32.
pub fn residue(kind: u8, x: u32) -> u32
    ensures { result ≡ remainder (value kind x) (2 ^ 32) }
{
    (raised(kind, x) & 4294967295) as u32
}

// The sum of raw bits, wrapped at the width.
pub fn wrapped_sum(kind: u8, a: u32, b: u32) -> u32
    ensures { result ≡ (a + b) % 2 ^ width kind }
{
    ((a as u64 + b as u64) & (modulus(kind) - 1)) as u32
}
