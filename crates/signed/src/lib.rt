// Signed 32-bit numbers of a slice, tested and taken apart. Everything above works on unsigned numbers.
#![tactic(auto)]

ghost use Rattle.std.specs.Prelude.{◌≡◌, ◌<◌, ◌^◌, length, set, pos};
ghost use Rattle.signed.specs.Numbers.{number, rise, fall, is, at_least, spans, difference, bits_of, signed_of};

// Above 0, how far.
pub fn rise(s: &[i32], at: usize) -> usize
    requires { at < length s.now }
    ensures { (result ≡ rise (number s.now at)) × (result < 2 ^ 31) }
{
    s[at].max(0) as usize
}

// Below 0, how far.
pub fn fall(s: &[i32], at: usize) -> usize
    requires { at < length s.now }
    ensures { result ≡ fall (number s.now at) }
{
    s[at].min(0).unsigned_abs() as usize
}

// The 32 bits of a number.
pub fn bits(s: &[i32], at: usize) -> u32
    requires { at < length s.now }
    ensures { result ≡ bits_of (number s.now at) }
{
    s[at].cast_unsigned()
}

#[tactic(auto, using(crate::specs::Laws::Numbers::is_parts, numbers::specs::Laws::Choice::both_and))]
pub fn is(s: &[i32], at: usize, n: usize) -> bool
    requires { at < length s.now }
    ensures { result ≡ is n (number s.now at) }
{
    fall(s, at) == 0 && rise(s, at) == n
}

#[tactic(auto, using(crate::specs::Laws::Numbers::least_parts, numbers::specs::Laws::Choice::both_and))]
pub fn at_least(s: &[i32], at: usize, low: usize) -> bool
    requires { at < length s.now }
    ensures { result ≡ at_least low (number s.now at) }
{
    fall(s, at) == 0 && low <= rise(s, at)
}

// From -below to above.
#[tactic(auto, using(crate::specs::Laws::Numbers::spans_parts, numbers::specs::Laws::Choice::both_and))]
pub fn spans(s: &[i32], at: usize, below: usize, above: usize) -> bool
    requires { at < length s.now }
    ensures { result ≡ spans below above (number s.now at) }
{
    fall(s, at) <= below && rise(s, at) <= above
}

pub fn put_natural(s: &mut [i32], at: usize, x: usize)
    requires { (at < length s.old) × (x < 2 ^ 31) }
    ensures { s.new ≡ set s.old at (pos x) }
{
    s[at] = x as i32;
}

// up - down
#[tactic(auto, using(std::proofs::lemmas::Int::ints), unfolding(crate::specs::Numbers::difference))]
pub fn put_difference(s: &mut [i32], at: usize, up: usize, down: usize)
    requires { (at < length s.old) × (up < 2 ^ 31) × (down < 2 ^ 31) }
    ensures { s.new ≡ set s.old at (difference up down) }
{
    s[at] = up as i32 - down as i32;
}

// 32 bits, read as a signed number.
#[tactic(auto, using(crate::proofs::Laws::cast_signed_of))]
pub fn put_bits(s: &mut [i32], at: usize, bits: u32)
    requires { at < length s.old }
    ensures { s.new ≡ set s.old at (signed_of bits) }
{
    s[at] = bits.cast_signed();
}
