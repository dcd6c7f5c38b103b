// The interpretations of a vector step's input: a kind, or packed, where a word of 32 bits holds four components of 8 bits.
ghost use Rattle.std.specs.Prelude.{◌≡◌};
ghost use Rattle.kinds.specs.Interpretations.{packed, interpretation_ok};

pub const PACKED_SIGNED: u8 = 8;

const PACKED_UNSIGNED: u8 = 9;

pub fn is_packed(interpretation: u8) -> bool
    ensures { result ≡ packed interpretation }
{
    numbers::between(
        PACKED_SIGNED as usize,
        PACKED_UNSIGNED as usize,
        interpretation as usize,
    )
}

pub fn interpretation_ok(interpretation: u8) -> bool
    ensures { result ≡ interpretation_ok interpretation }
{
    if super::kind_ok(interpretation) {
        return true;
    }
    is_packed(interpretation)
}
