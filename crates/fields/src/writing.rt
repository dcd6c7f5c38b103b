// Writing a field's head, and small stretches of bytes.
ghost use Rattle.std.specs.Prelude.{◌≡◌, [], ◌∷◌, ◌++◌, ◌+◌, ◌≤◌, length};
ghost use Rattle.std.proofs.lemmas.List.Edits.{sets};
ghost use Rattle.numbers.specs.Little.{u16_bytes};
ghost use Rattle.fields.specs.Bytes.{head_bytes};

use super::HEAD;

// A field's bytes: its head and the content. The bound spares each caller the content's type.
pub fn field_len(content: u16) -> usize
    ensures { (result ≡ 3 + content) × (result ≤ 65538) }
{
    HEAD + content as usize
}

pub fn put_byte(out: &mut [u8], at: usize, a: u8)
    requires { at + 1 ≤ length out.old }
    ensures { out.new ≡ sets out.old at (a ∷ []) }
{
    out[at] = a;
}

pub fn put_pair(out: &mut [u8], at: usize, a: u8, b: u8)
    requires { at + 2 ≤ length out.old }
    ensures { out.new ≡ sets out.old at (a ∷ b ∷ []) }
{
    put_byte(out, at, a);
    put_byte(out, at + 1, b);
}

// Two numbers of 16 bits.
pub fn put_u16s(out: &mut [u8], at: usize, x: u16, y: u16)
    requires { at + 4 ≤ length out.old }
    ensures { out.new ≡ sets out.old at (u16_bytes x ++ u16_bytes y) }
{
    numbers::put_u16(out, at, x);
    numbers::put_u16(out, at + 2, y);
}

// A field's tag and its content's length.
pub fn put_head(out: &mut [u8], at: usize, tag: u8, content: u16)
    requires { at + 3 ≤ length out.old }
    ensures { out.new ≡ sets out.old at (head_bytes tag content) }
{
    put_byte(out, at, tag);
    numbers::put_u16(out, at + 1, content);
}
