// The trace that a sheet makes: an event for each element of its loads and stores.
#![tactic(auto)]

ghost use Rattle.std.specs.Prelude.{◌≡◌, ℕ, ◌≤◌, ◌<◌, length};
ghost use Rattle.sheet.specs.Sizes.{step_places, matrix_places};
ghost use Rattle.addressing.specs.Rules.{elements_of};
ghost use Rattle.accesses.specs.Entries.{Near};
ghost use Rattle.expected.specs.Expected.{sort_of, byte_of, event_of, access_events};
ghost use Rattle.expected.specs.Listed.{listed_event};

use addressing::Access;
use outcomes::Outcome;
use sheet::sizes::PLACES;
use traces::{BYTE, DISCARDED, Event, FILLED, SKIPPED};

pub fn sort_of(o: Outcome) -> u8
    ensures { result ≡ sort_of o }
{
    match o {
        Outcome::Skipped => SKIPPED,
        Outcome::Filled(_) => FILLED,
        Outcome::Discarded => DISCARDED,
        Outcome::Placed(_) => BYTE,
    }
}

fn byte_of(o: Outcome) -> u32
    requires { Near o }
    ensures { result ≡ byte_of o }
{
    match o {
        Outcome::Skipped | Outcome::Filled(_) | Outcome::Discarded => 0,
        Outcome::Placed(byte) => byte as u32,
    }
}

fn event_of(step: usize, element: usize, o: Outcome) -> Event
    requires { (step < step_places) × (element < matrix_places) × Near o }
    ensures { result ≡ event_of step element o }
{
    Event {
        step: step as u16,
        element: element as u16,
        sort: sort_of(o),
        byte: byte_of(o),
    }
}

// The event of an element by its entry of a survey. The bits of a filled element do not show in its event, so any will do.
#[tactic(auto, using(crate::specs::Laws::Events::entry_near))]
pub fn listed_event(entries: &[u32; PLACES], step: usize, element: usize) -> Event
    requires { (step < step_places) × (element < matrix_places) }
    ensures { result ≡ listed_event step entries.now element }
{
    event_of(step, element, accesses::outcome_of(entries[element], 0))
}

// How many events the elements of an access have.
#[tactic(auto, using(crate::specs::Laws::Events::events_count))]
pub fn count_events(access: Access) -> usize
    requires { elements_of access ≤ matrix_places }
    ensures { (k : ℕ) → result ≡ length (access_events k access) }
{
    (access.rows * access.columns) as usize
}
