// Refusal 15: a store where a later element has an earlier one's byte.
#![tactic(auto)]

ghost use Rattle.std.specs.Prelude.{◌≡◌, true, ◌≤◌};
ghost use Rattle.sheet.specs.Sizes.{matrix_places};
ghost use Rattle.clashes.specs.Clashes.{clash_from, apart};
ghost use Rattle.clashes.specs.Entries.{has_byte, hits, same_entry};
ghost use Rattle.clashes.specs.Marks.{no_marks, unmarked, with_mark};

use sheet::sizes::{MEMORY_LIMIT, PLACES};

// The entries of a filled element and of a discarded one, past those of the 65,536 bytes.
pub const FILLED: u32 = MEMORY_LIMIT as u32 + 1;

pub const DISCARDED: u32 = MEMORY_LIMIT as u32 + 2;

// A mark for each of the 65,536 bytes of a memory, so many in a word.
const WORD: u32 = 32;

const MARKS: usize = 2048;

#[tactic(auto, unfolding(crate::specs::Marks::no_marks))]
fn no_marks() -> [u32; MARKS]
    ensures { result ≡ no_marks }
{
    [0; MARKS]
}

// An entry is that of an element with a byte.
#[tactic(auto, unfolding(numbers::specs::Choice::pick, numbers::specs::Choice::both, crate::specs::Entries::has_byte))]
fn has_byte(x: u32) -> bool
    ensures { result ≡ has_byte x }
{
    x != 0 && x < FILLED
}

// Marks the byte of an entry. The answer: it had no mark.
fn mark(marks: &mut [u32; MARKS], x: u32) -> bool
    ensures { (result ≡ unmarked marks.old x) × (marks.new ≡ with_mark marks.old x) }
{
    if !has_byte(x) {
        return true;
    }
    let byte = x - 1;
    let at = (byte / WORD) as usize;
    let place = byte % WORD;
    let word = marks[at];
    marks[at] = word | (1 << place);
    (word >> place) % 2 == 0
}

// Marks the bytes of `count` elements, up to the first that has a mark. The answer: none had.
fn mark_all(marks: &mut [u32; MARKS], entries: &[u32; PLACES], count: usize) -> bool
    requires { (marks.old ≡ no_marks) × (count ≤ matrix_places) }
    ensures { result ≡ apart (same_entry entries.now) count }
{
    for k in 0..count {
        if !mark(marks, entries[k]) {
            return false;
        }
    }
    true
}

// The bytes of the elements that have one ascend, so that none comes twice.
fn bytes_ascend(entries: &[u32; PLACES], count: usize) -> bool
    requires { count ≤ matrix_places }
    ensures { result ≡ true → apart (same_entry entries.now) count ≡ true }
{
    let mut last = 0;
    for k in 0..count {
        let x = entries[k];
        if has_byte(x) {
            if x <= last {
                return false;
            }
            last = x;
        }
    }
    true
}

// No element has an earlier one's byte. Marks are made only where the bytes do not ascend.
pub fn bytes_apart(entries: &[u32; PLACES], count: usize) -> bool
    requires { count ≤ matrix_places }
    ensures { result ≡ apart (same_entry entries.now) count }
{
    if bytes_ascend(entries, count) {
        return true;
    }
    let mut marks = no_marks();
    mark_all(&mut marks, entries, count)
}

#[tactic(auto, unfolding(numbers::specs::Choice::pick, numbers::specs::Choice::both, crate::specs::Entries::hits))]
fn same_byte(y: u32, x: u32) -> bool
    ensures { result ≡ hits y x }
{
    has_byte(x) && y == x
}

// The first of `count` elements that has an earlier one's byte, or the count.
pub fn first_clash(entries: &[u32; PLACES], count: usize) -> usize
    requires { count ≤ matrix_places }
    ensures { result ≡ clash_from (same_entry entries.now) 0 count }
{
    let mut clash = count;
    'search: for i in 0..count {
        for j in 0..i {
            if same_byte(entries[j], entries[i]) {
                clash = i;
                break 'search;
            }
        }
    }
    clash
}
