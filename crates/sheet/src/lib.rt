// The model of a sheet: what reading gives and writing takes.
#![tactic(auto)]

pub mod codes;
pub mod editions;
pub mod sizes;

use sizes::{LAYOUTS, RANK, STEPS, VIEWS};

// What becomes of a coordinate outside the tensor.
#[derive(Clone, Copy)]
pub enum ClampMode {
    Undefined,
    Constant,
    ClampToEdge,
    Repeat,
    MirrorRepeat,
}

// Over what a reduce goes: each row, each column, the whole matrix, or each block of 2 by 2.
#[derive(Clone, Copy)]
pub enum ReduceMode {
    Row,
    Column,
    Both,
    TwoByTwo,
}

// How a reduce combines two elements.
#[derive(Clone, Copy)]
pub enum Combine {
    Add,
    Min,
    Max,
    And,
    Or,
    Xor,
}

// A dimension of a tensor layout. The offset is 16 bits, two's complement.
#[derive(Clone, Copy)]
pub struct Dimension {
    pub block: u16,
    pub size: u16,
    pub stride: u16,
    pub offset: u16,
    pub span: u16,
}

// A tensor layout of `rank` dimensions, 0 outermost. `clamp` is the clamp value. Unused places are zero.
#[derive(Clone, Copy)]
pub struct Layout {
    pub rank: u8,
    pub mode: ClampMode,
    pub clamp: u32,
    pub dimensions: [Dimension; RANK],
}

#[derive(Clone, Copy)]
pub struct ViewDimension {
    pub size: u16,
    pub stride: u16,
}

// One side of a view's clip.
#[derive(Clone, Copy)]
pub struct Clip {
    pub offset: u16,
    pub span: u16,
}

// A tensor view of `rank` dimensions. `sized` says whether it has dimensions and strides of its own. Unused places are zero.
#[derive(Clone, Copy)]
pub struct View {
    pub rank: u8,
    pub sized: bool,
    pub permutation: [u8; RANK],
    pub dimensions: [ViewDimension; RANK],
    pub rows: Clip,
    pub columns: Clip,
}

// How a matrix lies in memory: row after row, or column after column.
#[derive(Clone, Copy)]
pub enum MemoryLayout {
    RowMajor,
    ColumnMajor,
}

// A matrix in memory times a vector in a register, plus a bias in memory.
#[derive(Clone, Copy)]
pub struct VectorStep {
    // The result register, and the result's kind.
    pub result: u8,
    pub kind: u8,
    // The input register, and its interpretation: a kind, or four components a word.
    pub input: u8,
    pub interpretation: u8,
    // The matrix interpretation, a kind; M and K.
    pub matrix: u8,
    pub rows: u8,
    pub columns: u8,
    // Where the matrix lies: the stride is from row to row, or from column to column.
    pub layout: MemoryLayout,
    pub stride: u16,
    pub offset: u32,
    // Whether there is a bias, and its offset.
    pub biased: bool,
    pub bias: u32,
}

// A step that makes one matrix, whole, in one register.
#[derive(Clone, Copy)]
pub enum WholeStep {
    Fill {
        register: u8,
        rows: u8,
        columns: u8,
        kind: u8,
        value: u32,
    },
    Reduce {
        result: u8,
        source: u8,
        rows: u8,
        columns: u8,
        mode: ReduceMode,
        combine: Combine,
    },
    Transpose {
        result: u8,
        source: u8,
    },
    MultiplyAdd {
        result: u8,
        a: u8,
        b: u8,
        c: u8,
    },
    Vector(VectorStep),
}

// What a load starts from: its register as it stands, zeros of its register's type, or a register that is copied to it.
#[derive(Clone, Copy)]
pub enum Object {
    Kept,
    Zeros,
    Register(u8),
}

// Whether a load or a store goes through a view, and which.
#[derive(Clone, Copy)]
pub enum Viewing {
    Plain,
    Through(u8),
}

// Where in memory a load or a store goes: by a layout, perhaps through a view, from a base.
#[derive(Clone, Copy)]
pub struct Window {
    pub layout: u8,
    pub view: Viewing,
    pub base: u32,
}

// A step: a load or a store, which go element by element, or a whole step.
#[derive(Clone, Copy)]
pub enum Step {
    Nothing,
    Load {
        register: u8,
        object: Object,
        window: Window,
    },
    Store {
        register: u8,
        window: Window,
    },
    Whole(WholeStep),
}

// A step's place in a sheet.
#[derive(Clone, Copy)]
pub struct Cell {
    pub step: Step,
}

// What loads and stores name: `layouts` counts the layouts given, which stand first in `layout`; so with views. Unused places are zero.
#[derive(Clone, Copy)]
pub struct Tensors {
    pub layouts: usize,
    pub layout: [Layout; LAYOUTS],
    pub views: usize,
    pub view: [View; VIEWS],
}

// A sheet: the first `steps` of `step` are given, the others are unused.
#[derive(Clone, Copy)]
pub struct Sheet {
    pub edition: u8,
    pub tensors: Tensors,
    pub steps: usize,
    pub step: [Cell; STEPS],
}
