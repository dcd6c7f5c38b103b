// The loads and stores of a sheet that its check accepts: the outcomes of their elements.
#![tactic(auto)]

ghost use Rattle.std.specs.Prelude.{◌≡◌, ◌<◌, length};
ghost use Rattle.sheet.specs.Sizes.{matrix_places};
ghost use Rattle.accepted.specs.Accepted.{ClearAccess, Listed};

use addressing::Access;
use sheet::sizes::PLACES;

// How many outcomes the entries of a survey stand for, and the bits that a filled element takes.
#[derive(Clone, Copy)]
pub struct Outcomes {
    pub count: usize,
    pub fill: u32,
}

// The entries are lent room. An access without rows is that of no element.
pub fn survey_access(entries: &mut [u32; PLACES], access: Access) -> Outcomes
    requires { (0 < access.rows → ClearAccess access) × (length entries.old ≡ matrix_places) }
    ensures entries_len { length entries.new ≡ matrix_places }
    ensures listed { Listed access entries.new result }
{
    if access.rows < 1 {
        return Outcomes { count: 0, fill: 0 };
    }
    let p = addressing::plan_of(access);
    accesses::survey(entries, p);
    Outcomes {
        count: p.count,
        fill: p.fill,
    }
}
