// The limits of document 01's Sizes that no edition moves, and the places that arrays have.
ghost use Rattle.std.specs.Prelude.{◌≡◌, ◌≤◌, ◌<◌};
ghost use Rattle.sheet.specs.Sizes.{rank_ok, size_ok, offset_ok, register_ok};

// The places that a layout's and a view's dimensions have.
pub const RANK: usize = 5;

pub const LAYOUTS: usize = 4;

pub const VIEWS: usize = 4;

pub const REGISTERS: usize = 4;

// The most rows and columns of a matrix, whatever its edition.
pub const SIDE: usize = 16;

// The places of a register's matrix: side by side.
pub const PLACES: usize = SIDE * SIDE;

// The places of all registers' matrices.
pub const ELEMENTS: usize = REGISTERS * PLACES;

// The places that a sheet has for steps, whatever its edition.
pub const STEPS: usize = 32;

// The most records of a tape, whatever its edition.
pub const RECORDS: usize = 1024;

// The largest memory.
pub const MEMORY_LIMIT: usize = 65_536;

// The largest block size, dimension and span.
const SIZE: u16 = 4096;

// The 16 bits of the lowest offset, -4,096.
const LOWEST_OFFSET: u16 = 61440;

// A layout or a view has 1 to 5 dimensions.
pub fn rank_ok(rank: u8) -> bool
    ensures { result ≡ rank_ok rank }
{
    numbers::between(1, RANK, rank as usize)
}

// A block size, a dimension or a span is 1 to 4,096.
pub fn size_ok(x: u16) -> bool
    ensures { result ≡ size_ok x }
{
    numbers::between(1, SIZE as usize, x as usize)
}

// The 16 bits of an offset from -4,096 to 4,095.
#[tactic(auto, using(numbers::specs::Laws::Choice::calls), unfolding(crate::specs::Sizes::offset_ok))]
pub fn offset_ok(x: u16) -> bool
    ensures { result ≡ offset_ok x }
{
    if x < SIZE {
        return true;
    }
    LOWEST_OFFSET <= x
}

pub fn register_ok(register: u8) -> bool
    ensures { result ≡ register_ok register }
{
    (register as usize) < REGISTERS
}
