// The named classes of a bracket, as [:digit:].
ghost use Rattle.std.specs.Prelude.{◌≡◌, ◌+◌, ◌≤◌, true, ◌++◌, length, drop, if◌then◌else◌, codes, option_map, option_copied, IfSome};
ghost use Rattle.byte_notation.specs.Classes.{name_of, ranges_of, starts, class_named, class_at, passed};

// The bytes from `low` to `high`, both included.
#[derive(Clone, Copy)]
pub struct ByteRange {
    pub low: u8,
    pub high: u8,
}

#[derive(Clone, Copy)]
pub struct Class {
    pub name: &'static [u8],
    pub ranges: &'static [ByteRange],
}

const UPPER: ByteRange = ByteRange {
    low: b'A',
    high: b'Z',
};

const LOWER: ByteRange = ByteRange {
    low: b'a',
    high: b'z',
};

const DIGIT: ByteRange = ByteRange {
    low: b'0',
    high: b'9',
};

const SPACE: ByteRange = ByteRange { low: 32, high: 32 };

const CLASSES: [Class; 8] = [
    Class {
        name: b"upper",
        ranges: &[UPPER],
    },
    Class {
        name: b"lower",
        ranges: &[LOWER],
    },
    Class {
        name: b"alpha",
        ranges: &[UPPER, LOWER],
    },
    Class {
        name: b"digit",
        ranges: &[DIGIT],
    },
    Class {
        name: b"alnum",
        ranges: &[DIGIT, UPPER, LOWER],
    },
    Class {
        name: b"xdigit",
        ranges: &[
            DIGIT,
            ByteRange {
                low: b'A',
                high: b'F',
            },
            ByteRange {
                low: b'a',
                high: b'f',
            },
        ],
    },
    Class {
        name: b"blank",
        ranges: &[ByteRange { low: 9, high: 9 }, SPACE],
    },
    Class {
        name: b"space",
        ranges: &[ByteRange { low: 9, high: 13 }, SPACE],
    },
];

// Says whether the text begins with the name and then :].
fn begins_named(text: &[u8], name: &[u8]) -> bool
    ensures is { result ≡ starts (name.now ++ codes ":]") text.now }
    ensures fits { result ≡ true → length name.now + 2 ≤ length text.now }
{
    match text.strip_prefix(name) {
        Some(behind) => behind.starts_with(b":]"),
        None => false,
    }
}

// The class whose name stands in front, with :] behind it.
fn class_named(text: &[u8]) -> Option<&'static Class>
    ensures name { option_map (λ c. c.now.name.now) result ≡ option_map name_of (class_named text.now) }
    ensures ranges { option_map (λ c. c.now.ranges.now) result ≡ option_map ranges_of (class_named text.now) }
    ensures fits { IfSome result (λ c. length c.now.name.now + 2 ≤ length text.now) }
{
    for class in &CLASSES {
        if begins_named(text, class.name) {
            return Some(class);
        }
    }
    None
}

// Lends the cursor to a reader, and sets it back to the start when dropped, unless the reader is done.
struct Rewind<'a> {
    cursor: &'a mut usize,
    start: usize,
    done: bool,
}

impl Drop for Rewind<'_> {
    fn drop(self)
        ensures { self.exit.0.now ≡ (if self.entry.done then self.entry.cursor.now else self.entry.start) }
    {
        if !self.done {
            *self.cursor = self.start;
        }
        let Rewind {
            cursor: _,
            start: _,
            done: _,
        } = self;
    }
}

// The bytes of the class that stands at the cursor, which then stands behind it. Without one the cursor is where it was.
pub fn read_class(text: &[u8], cursor: &mut usize) -> Option<&'static [ByteRange]>
    requires { cursor.old ≤ length text.now }
    ensures is { option_copied result ≡ option_map ranges_of (class_at (drop cursor.old text.now)) }
    ensures moved { cursor.new ≡ passed (class_at (drop cursor.old text.now)) cursor.old }
    ensures within { cursor.new ≤ length text.now }
{
    let start = *cursor;
    let mut back = Rewind {
        cursor,
        start,
        done: false,
    };
    if !text[start..].starts_with(b"[:") {
        return None;
    }
    *back.cursor += 2;
    let class = class_named(&text[*back.cursor..])?;
    *back.cursor += class.name.len() + 2;
    back.done = true;
    Some(class.ranges)
}
