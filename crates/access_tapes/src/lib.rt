// The records of one load or store, counted and written, and its mask.
#![tactic(auto)]

ghost use Rattle.std.specs.Prelude.{◌≡◌, ℕ, ◌<◌, ◌≤◌, length};
ghost use Rattle.std.proofs.lemmas.List.Edits.{sets};
ghost use Rattle.sheet.specs.Sizes.{register_count, step_places, matrix_places};
ghost use Rattle.addressing.specs.Rules.{elements_of};
ghost use Rattle.accesses.specs.Entries.{Told};
ghost use Rattle.transfers.specs.Transfers.{outcome_of};
ghost use Rattle.accepted.specs.Accepted.{ClearAccess, entries_outcome};
ghost use Rattle.runs.specs.Runs.{runs, runs_records};
ghost use Rattle.masks.specs.Masks.{mask_area, mask_place, bit_of, mask_of};
ghost use Rattle.access_tapes.specs.Accesses.{access_outcomes, access_records};
ghost use Rattle.access_tapes.specs.Writing.{Room, Wrote};

use addressing::Access;
use runs::Run;
use sheet::sizes::PLACES;

// How many runs the first `n` elements of a survey make, whatever bits fill an element.
#[tactic(auto, using(runs::proofs::Laws::Writing::held_none, runs::proofs::Laws::Writing::count_none, runs::proofs::Laws::Writing::count_few, runs::proofs::Laws::Writing::emit_one))]
fn count_runs(entries: &[u32; PLACES], n: usize) -> usize
    requires { n ≤ matrix_places }
    ensures { (fill : ℕ) → result ≡ length (runs (entries_outcome entries.now fill) n) }
{
    let mut held = Run::Idle;
    let mut records = 0;
    for (k, &entry) in entries[..n].iter().enumerate() {
        let o = accesses::outcome_of(entry, 0);
        let t = runs::next_run(held, k, o);
        records += runs::records_of(t.done);
        held = t.held;
    }
    records + runs::records_of(held)
}

// How many records the runs of an access are, by the entries that its check left.
pub fn count_access(entries: &[u32; PLACES], access: Access) -> usize
    requires { (elements_of access ≤ matrix_places) × Told access entries.now }
    ensures { (result ≡ length (runs (outcome_of access) (elements_of access))) × (result ≤ matrix_places) }
{
    count_runs(entries, (access.rows as usize) * (access.columns as usize))
}

// Writes the records of the runs from record `start` of a tape on: the next record's number.
fn write_runs(
    tape: &mut [i32],
    entries: &[u32; PLACES],
    n: usize,
    fill: u32,
    start: usize,
    load: bool,
    register: u8,
) -> usize
    requires { (n ≤ matrix_places) × (register < register_count) × Room tape.old start (runs_records load register (entries_outcome entries.now fill) n) }
    ensures { Wrote tape.old tape.new start (runs_records load register (entries_outcome entries.now fill) n) result }
{
    let mut held = Run::Idle;
    let mut at = start;
    for (k, &entry) in entries[..n].iter().enumerate() {
        let o = accesses::outcome_of(entry, fill);
        let t = runs::next_run(held, k, o);
        at = runs::write_run(tape, at, load, register, t.done);
        held = t.held;
    }
    runs::write_run(tape, at, load, register, held)
}

// Writes the records of an access from record `at` of a tape on, and the mask of step `k`, of the same survey: the next record's number.
// The entries are lent room.
#[tactic(auto, using(crate::proofs::Laws::listed_records, crate::proofs::Laws::listed_mask))]
pub fn write_access(
    tape: &mut [i32],
    masks: &mut [u8],
    entries: &mut [u32; PLACES],
    at: usize,
    k: usize,
    access: Access,
    register: u8,
) -> usize
    requires clear_access { (0 < access.rows → ClearAccess access) × (length entries.old ≡ matrix_places) }
    requires k_lt_step_places { (k < step_places) × (mask_area ≤ length masks.old) }
    requires register_lt_register_count { (register < register_count) × Room tape.old at (access_records access register) }
    ensures entries_len { length entries.new ≡ matrix_places }
    ensures wrote { Wrote tape.old tape.new at (access_records access register) result }
    ensures masks_after { masks.new ≡ sets masks.old (mask_place k) (mask_of (bit_of (access_outcomes access))) }
{
    let o = accepted::survey_access(entries, access);
    masks::put_mask(masks, k, entries, o.count);
    write_runs(tape, entries, o.count, o.fill, at, access.load, register)
}
