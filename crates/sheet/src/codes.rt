// The numbers by which a sheet names its fields, a clamp mode, a reduce mode, a combine, a memory layout, a flag, an object and a view. A
// number past a table gives the last entry.
ghost use Rattle.std.specs.Prelude.{◌≡◌};
ghost use Rattle.sheet.specs.Codes.{undefined, clamp_code, clamp_mode, reduce_code, reduce_mode, combine_code, combine_of, memory_layout_code, memory_layout, flag_code, object_code, object_of, viewing_code, viewing_of};

use super::{ClampMode, Combine, MemoryLayout, Object, ReduceMode, Viewing};

// The tags of fields.
pub const EDITION_TAG: u8 = 0x01;

pub const LAYOUT_TAG: u8 = 0x10;

pub const VIEW_TAG: u8 = 0x11;

pub const FILL_TAG: u8 = 0x20;

pub const LOAD_TAG: u8 = 0x21;

pub const STORE_TAG: u8 = 0x22;

pub const REDUCE_TAG: u8 = 0x23;

pub const TRANSPOSE_TAG: u8 = 0x24;

pub const MULTIPLY_TAG: u8 = 0x25;

pub const VECTOR_TAG: u8 = 0x26;

// The tags of steps are those from fill's to this one.
pub const LAST_STEP_TAG: u8 = VECTOR_TAG;

// No object, no view.
const NONE: u8 = 255;

pub fn undefined(mode: ClampMode) -> bool
    ensures { result ≡ undefined mode }
{
    match mode {
        ClampMode::Undefined => true,
        ClampMode::Constant => false,
        ClampMode::ClampToEdge => false,
        ClampMode::Repeat => false,
        ClampMode::MirrorRepeat => false,
    }
}

pub fn clamp_code(mode: ClampMode) -> u8
    ensures { result ≡ clamp_code mode }
{
    match mode {
        ClampMode::Undefined => 0,
        ClampMode::Constant => 1,
        ClampMode::ClampToEdge => 2,
        ClampMode::Repeat => 3,
        ClampMode::MirrorRepeat => 4,
    }
}

pub fn clamp_mode(code: u8) -> ClampMode
    ensures { result ≡ clamp_mode code }
{
    match code {
        0 => ClampMode::Undefined,
        1 => ClampMode::Constant,
        2 => ClampMode::ClampToEdge,
        3 => ClampMode::Repeat,
        _ => ClampMode::MirrorRepeat,
    }
}

pub fn reduce_code(mode: ReduceMode) -> u8
    ensures { result ≡ reduce_code mode }
{
    match mode {
        ReduceMode::Row => 1,
        ReduceMode::Column => 2,
        ReduceMode::Both => 3,
        ReduceMode::TwoByTwo => 4,
    }
}

pub fn reduce_mode(code: u8) -> ReduceMode
    ensures { result ≡ reduce_mode code }
{
    match code {
        1 => ReduceMode::Row,
        2 => ReduceMode::Column,
        3 => ReduceMode::Both,
        _ => ReduceMode::TwoByTwo,
    }
}

pub fn combine_code(combine: Combine) -> u8
    ensures { result ≡ combine_code combine }
{
    match combine {
        Combine::Add => 0,
        Combine::Min => 1,
        Combine::Max => 2,
        Combine::And => 3,
        Combine::Or => 4,
        Combine::Xor => 5,
    }
}

pub fn combine_of(code: u8) -> Combine
    ensures { result ≡ combine_of code }
{
    match code {
        0 => Combine::Add,
        1 => Combine::Min,
        2 => Combine::Max,
        3 => Combine::And,
        4 => Combine::Or,
        _ => Combine::Xor,
    }
}

pub fn memory_layout_code(layout: MemoryLayout) -> u8
    ensures { result ≡ memory_layout_code layout }
{
    match layout {
        MemoryLayout::RowMajor => 0,
        MemoryLayout::ColumnMajor => 1,
    }
}

pub fn memory_layout(code: u8) -> MemoryLayout
    ensures { result ≡ memory_layout code }
{
    match code {
        0 => MemoryLayout::RowMajor,
        _ => MemoryLayout::ColumnMajor,
    }
}

pub fn flag_code(flag: bool) -> u8
    ensures { result ≡ flag_code flag }
{
    if flag { 1 } else { 0 }
}

pub fn object_code(object: Object) -> u8
    ensures { result ≡ object_code object }
{
    match object {
        Object::Kept => NONE,
        Object::Zeros => NONE,
        Object::Register(register) => register,
    }
}

// `absent` is what no object means in the sheet's edition.
pub fn object_of(absent: Object, code: u8) -> Object
    ensures { result ≡ object_of absent code }
{
    if code == NONE {
        return absent;
    }
    Object::Register(code)
}

pub fn viewing_code(view: Viewing) -> u8
    ensures { result ≡ viewing_code view }
{
    match view {
        Viewing::Plain => NONE,
        Viewing::Through(v) => v,
    }
}

pub fn viewing_of(code: u8) -> Viewing
    ensures { result ≡ viewing_of code }
{
    if code == NONE {
        return Viewing::Plain;
    }
    Viewing::Through(code)
}
