// The edition's field, a sheet's first.
ghost use Rattle.std.specs.Prelude.{◌≡◌, ◌≤◌, length};
ghost use Rattle.std.proofs.lemmas.List.Edits.{sets};
ghost use Rattle.sheet_bytes.specs.Bytes.{edition_field};

use fields::{HEAD, writing};
use sheet::codes::EDITION_TAG;

// Its bytes.
pub const EDITION_LEN: usize = 4;

#[tactic(auto, unfolding(fields::specs::Bytes::field_bytes))]
pub fn put_edition(out: &mut [u8], edition: u8)
    requires { 4 ≤ length out.old }
    ensures { out.new ≡ sets out.old 0 (edition_field edition) }
{
    writing::put_head(out, 0, EDITION_TAG, 1);
    writing::put_byte(out, HEAD, edition);
}
