// The masks beside a tape: for each step a bit an element, set exactly where the element has a byte, and the number of set bits.
#![tactic(auto)]

ghost use Rattle.std.specs.Prelude.{◌≡◌, ◌+◌, ◌-◌, ◌<◌, ◌≤◌, length, get_or};
ghost use Rattle.std.proofs.lemmas.List.Edits.{sets};
ghost use Rattle.numbers.specs.Lists.{each};
ghost use Rattle.sheet.specs.Sizes.{matrix_places, step_places};
ghost use Rattle.masks.specs.Masks.{bit_bytes, mask_area, mask_place, packed, sum_of, bit_byte, mask_of, touched};
ghost use Rattle.masks.specs.Entries.{entry_one, entry_bit, empty_masks};

use clashes::FILLED;
use sheet::sizes::{PLACES, STEPS};

// The bytes of a step's bits, and of its mask: the count takes two more.
const BIT_BYTES: usize = PLACES / 8;

const MASK_BYTES: usize = BIT_BYTES + 2;

// The bytes of a mask area, which holds all steps.
pub const MASK_AREA: usize = STEPS * MASK_BYTES;

// The bits of a word, and its bytes.
const WORD: usize = 32;

const WORD_BYTES: usize = WORD / 8;

// 1 for an entry of an element with a byte.
#[tactic(auto, unfolding(accesses::specs::Entries::entry_outcome, numbers::specs::Choice::pick))]
fn entry_one(entry: u32) -> u32
    ensures { (result ≡ entry_one entry) × (result ≤ 1) }
{
    u32::from(0 < entry && entry < FILLED)
}

// How many of a word's elements from `first` on are among `count`.
fn word_elements(count: usize, first: usize) -> usize
    ensures { (result ≤ 32) × (result ≤ count - first) × (result < 32 → count ≤ first + result) }
{
    count.saturating_sub(first).min(WORD)
}

// The bits of 32 elements of `count`, the first lowest.
#[tactic(auto, using(crate::proofs::Laws::Packed::packed_next, crate::proofs::Laws::Packed::packed_room, crate::proofs::Laws::Bits::entry_bits, crate::proofs::Laws::Bits::entry_inside))]
fn mask_word(entries: &[u32; PLACES], count: usize, first: usize) -> u32
    requires { count ≤ matrix_places }
    ensures { result ≡ packed (entry_bit entries.now count) first 32 }
{
    let mut word = 0;
    for left in (0..word_elements(count, first)).rev() {
        word = word * 2 + entry_one(entries[first + left]);
    }
    word
}

// Writes the bits from a place on: how many are set, each word's counted by the language.
#[tactic(auto, using(crate::proofs::Laws::Packed::sum_none, crate::proofs::Laws::Bits::entry_bits, crate::proofs::Laws::Written::bits_none, crate::proofs::Laws::Written::word_counted, crate::proofs::Laws::Written::word_written))]
fn put_bits(masks: &mut [u8], at: usize, entries: &[u32; PLACES], count: usize) -> u32
    requires { (count ≤ matrix_places) × (at + bit_bytes ≤ length masks.old) }
    ensures value { result ≡ sum_of (entry_bit entries.now count) matrix_places }
    ensures masks_after { masks.new ≡ sets masks.old at (each bit_bytes (bit_byte (entry_bit entries.now count))) }
{
    let mut ones = 0;
    for i in 0..PLACES / WORD {
        let word = mask_word(entries, count, i * WORD);
        numbers::put_u32(masks, at + i * WORD_BYTES, word);
        ones += word.count_ones();
    }
    ones
}

// Writes the mask of a step whose survey has `count` entries: an empty one at once where it has none.
#[tactic(auto, using(crate::proofs::Laws::Bits::entry_bits, crate::proofs::Laws::Written::sum_most, crate::proofs::Laws::Written::mask_written, crate::proofs::Laws::Written::none_written))]
pub fn put_mask(masks: &mut [u8], step: usize, entries: &[u32; PLACES], count: usize)
    requires { (step < step_places) × (mask_area ≤ length masks.old) × (count ≤ matrix_places) }
    ensures { masks.new ≡ sets masks.old (mask_place step) (mask_of (entry_bit entries.now count)) }
{
    if count == 0 {
        return clear_masks(masks, step, step + 1);
    }
    let at = step * MASK_BYTES;
    let ones = put_bits(masks, at, entries, count);
    numbers::put_u16(masks, at + BIT_BYTES, ones as u16);
}

// Writes empty masks from a step on, up to another.
pub fn clear_masks(masks: &mut [u8], first: usize, end: usize)
    requires { (first ≤ end) × (end ≤ step_places) × (mask_area ≤ length masks.old) }
    ensures { masks.new ≡ sets masks.old (mask_place first) (empty_masks (end - first)) }
{
    masks[first * MASK_BYTES..end * MASK_BYTES].fill(0);
}

// A byte of a mask area, 0 past its end.
fn mask_byte(masks: &[u8], place: usize) -> usize
    ensures { result ≡ get_or masks.now place 0 }
{
    masks.get(place).map_or(0, |b| usize::from(*b))
}

// Did a step touch an element, by its mask?
#[tactic(auto, using(numbers::specs::Laws::Choice::both_and), unfolding(crate::specs::Masks::touched))]
pub fn touched(masks: &[u8], step: usize, element: usize) -> bool
    ensures { result ≡ touched masks.now step element }
{
    step < STEPS
        && element < PLACES
        && (mask_byte(masks, step * MASK_BYTES + element / 8) >> (element % 8)) % 2 == 1
}
