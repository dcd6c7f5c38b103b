// Refusals: the documents' numbers by name, and where one was given. Document 01 has 1 to 19, document 02 the later ones.
#![tactic(auto)]

ghost use Rattle.std.specs.Prelude.{◌≡◌};
ghost use Rattle.refusals.specs.Refusals.{refusal_at, not_refused, stop_at};

// A field's head or content runs past the end.
pub const CUT_SHORT: u8 = 1;

pub const UNKNOWN_TAG: u8 = 2;

// A field out of order, repeated, or one too many; no edition.
pub const OUT_OF_ORDER: u8 = 3;

pub const WRONG_LENGTH: u8 = 4;

// A number beyond Sizes.
pub const BEYOND_SIZES: u8 = 5;

pub const UNKNOWN_EDITION: u8 = 6;

// A register read is empty.
pub const EMPTY_REGISTER: u8 = 7;

pub const SHAPES_DISAGREE: u8 = 8;

pub const UNALIGNED_BASE: u8 = 9;

// A view without dimensions, and another dimension count than the layout's.
pub const RANKS_DIFFER: u8 = 10;

pub const BLOCKED_STORE: u8 = 11;

pub const INDEX_TOO_LARGE: u8 = 12;

// Outside, and the clamp mode is Undefined.
pub const OUTSIDE_UNDEFINED: u8 = 13;

pub const OUTSIDE_MEMORY: u8 = 14;

// A later element of a store has an earlier one's byte.
pub const BYTE_TWICE: u8 = 15;

pub const TAPE_TOO_LONG: u8 = 16;

pub const RECORD_OUT_OF_RANGE: u8 = 17;

pub const MEMORY_TOO_LARGE: u8 = 18;

pub const ROOM_TOO_SHORT: u8 = 19;

// A field of a trace is not after the one before.
pub const NOT_AFTER: u8 = 26;

// A number and its place, document 01's two numbers: the byte, step or record, and the element. All zero: not refused.
#[derive(Clone, Copy)]
pub struct Refusal {
    pub number: u8,
    pub place: usize,
    pub element: usize,
}

pub fn refusal_at(number: u8, place: usize, element: usize) -> Refusal
    ensures { result ≡ refusal_at number place element }
{
    Refusal {
        number,
        place,
        element,
    }
}

pub fn not_refused() -> Refusal
    ensures { result ≡ not_refused }
{
    refusal_at(0, 0, 0)
}

// Why and where a step is refused: a number and its element, 0 where it names none. All zero: not refused.
#[derive(Clone, Copy)]
pub struct Stop {
    pub number: u8,
    pub element: usize,
}

pub fn stop_at(number: u8, element: usize) -> Stop
    ensures { result ≡ stop_at number element }
{
    Stop { number, element }
}
