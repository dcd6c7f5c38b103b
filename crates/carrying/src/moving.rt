// Loads and stores of a sheet: their performance.
ghost use Rattle.std.specs.Prelude.{◌≡◌, ◌<◌, ◌^◌, length};
ghost use Rattle.sheet.specs.Sizes.{register_count, matrix_places};
ghost use Rattle.transfers.specs.Acts.{state};
ghost use Rattle.transfers.specs.Transfers.{loaded_elements, stored_elements};
ghost use Rattle.accepted.specs.Accepted.{ClearAccess};

use addressing::Access;
use counts::Counts;
use sheet::sizes::{ELEMENTS, PLACES};

// The elements of a load into a register that its object was copied to. The answer counts each element that had a byte.
pub fn perform_load(
    entries: &mut [u32; PLACES],
    elements: &mut [u32; ELEMENTS],
    memory: &[u8],
    access: Access,
    register: u8,
    counted: Counts,
) -> Counts
    requires clear_access { ClearAccess access × (access.memory ≡ length memory.now) }
    requires register_lt_register_count { (register < register_count) × (counted.placed < 2 ^ 31) × (length entries.old ≡ matrix_places) }
    ensures entries_len { length entries.new ≡ matrix_places }
    ensures result_after { state elements.new memory.now result ≡ loaded_elements access register (state elements.old memory.now counted) }
{
    let p = addressing::plan_of(access);
    transfers::load_elements(elements, memory, entries, p, register, counted)
}

// The elements of a store. The answer counts each element that had a byte.
pub fn perform_store(
    entries: &mut [u32; PLACES],
    elements: &[u32; ELEMENTS],
    memory: &mut [u8],
    access: Access,
    register: u8,
    counted: Counts,
) -> Counts
    requires clear_access { ClearAccess access × (access.memory ≡ length memory.old) }
    requires register_lt_register_count { (register < register_count) × (counted.placed < 2 ^ 31) × (length entries.old ≡ matrix_places) }
    ensures entries_len { length entries.new ≡ matrix_places }
    ensures result_after { state elements.now memory.new result ≡ stored_elements access register (state elements.now memory.old counted) }
{
    let p = addressing::plan_of(access);
    transfers::store_elements(elements, memory, entries, p, register, counted)
}
