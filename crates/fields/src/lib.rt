// Tagged fields in bytes. A cursor, by value, steps over a field and hands itself back with the field's bounds.
#![tactic(auto)]

ghost use Rattle.std.specs.Prelude.{◌≡◌, ◌≤◌, length};
ghost use Rattle.fields.specs.Fields.{field_at};

pub mod writing;

// The bytes of a field before its content: a tag and a length.
pub const HEAD: usize = 3;

#[derive(Clone, Copy)]
pub struct Cursor {
    pub at: usize,
}

#[derive(Clone, Copy)]
pub enum Field {
    // The content is the `len` bytes from `start`; `next` is past it.
    Whole {
        tag: u8,
        start: usize,
        len: usize,
        next: Cursor,
    },
    // Too few bytes for the head or for the content.
    Short,
}

impl Cursor {
    pub fn field(self, s: &[u8]) -> Field
        requires { self.at ≤ length s.now }
        ensures { result ≡ field_at s.now self.at }
    {
        let at = self.at;
        if s.len() - at < HEAD {
            return Field::Short;
        }
        let tag = s[at];
        let len = numbers::u16_at(s, at + 1) as usize;
        let start = at + HEAD;
        if len <= s.len() - start {
            Field::Whole {
                tag,
                start,
                len,
                next: Cursor { at: start + len },
            }
        } else {
            Field::Short
        }
    }
}
