// Everything that depends on a sheet's edition.
ghost use Rattle.std.specs.Prelude.{◌≡◌};
ghost use Rattle.sheet.specs.Editions.{edition_ok, has_vectors, object_is_zeros, no_object, tag_known, limits, side_ok, fill_length};

use super::{Object, codes, sizes};

// Editions are 1 to the newest.
const NEWEST_EDITION: usize = 3;

// The edition that brought the vector step.
const VECTOR_EDITION: u8 = 2;

// The edition from which on a load without an object starts from zeros.
const ZEROS_EDITION: u8 = 3;

// The sizes that move together from edition to edition: the most rows and columns of a matrix, steps of a sheet, and records of a tape.
#[derive(Clone, Copy)]
pub struct SizeLimits {
    pub side: usize,
    pub steps: usize,
    pub records: usize,
}

pub fn edition_ok(edition: u8) -> bool
    ensures { result ≡ edition_ok edition }
{
    numbers::between(1, NEWEST_EDITION, edition as usize)
}

pub fn has_vectors(edition: u8) -> bool
    ensures { result ≡ has_vectors edition }
{
    VECTOR_EDITION <= edition
}

pub fn object_is_zeros(edition: u8) -> bool
    ensures { result ≡ object_is_zeros edition }
{
    ZEROS_EDITION <= edition
}

// What no object means: zeros of the register's own type, or in an older edition the register as it stands.
pub fn no_object(edition: u8) -> Object
    ensures { result ≡ no_object edition }
{
    if object_is_zeros(edition) {
        return Object::Zeros;
    }
    Object::Kept
}

// A step's tag of a later edition is not known in an older one; before any edition each is, so that the order decides.
pub fn tag_known(edition: u8, tag: u8) -> bool
    ensures { result ≡ tag_known edition tag }
{
    if edition == 0 {
        return true;
    }
    if tag == codes::VECTOR_TAG {
        return has_vectors(edition);
    }
    true
}

pub fn limits(edition: u8) -> SizeLimits
    ensures { result ≡ limits edition }
{
    SizeLimits {
        side: 16,
        steps: sizes::STEPS,
        records: sizes::RECORDS,
    }
}

pub fn side_ok(edition: u8, x: u8) -> bool
    ensures { result ≡ side_ok edition x }
{
    let most = limits(edition);
    numbers::between(1, most.side, x as usize)
}

// The bytes of a fill's content.
pub fn fill_length(edition: u8) -> usize
    ensures { result ≡ fill_length edition }
{
    8
}
