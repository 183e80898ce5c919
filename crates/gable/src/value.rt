// A value as people read it, from its output bytes.
use fields::field;
use printing::Page;
use std::fmt::Write;

// A value's kinds, by their numbers in the output.
#[derive(Clone, Copy, Debug, PartialEq, Eq)]
enum Kind {
    Unit,
    Bool,
    Unsigned,
    Signed,
    Float,
    Char,
    Text,
    Bytes,
    Vec,
    Tuple,
    Object,
}

// What no output has, as a kind above 10, reads as unit.
impl From<u64> for Kind {
    fn from(number: u64) -> Kind {
        match number {
            1 => Kind::Bool,
            2 => Kind::Unsigned,
            3 => Kind::Signed,
            4 => Kind::Float,
            5 => Kind::Char,
            6 => Kind::Text,
            7 => Kind::Bytes,
            8 => Kind::Vec,
            9 => Kind::Tuple,
            10 => Kind::Object,
            _ => Kind::Unit,
        }
    }
}

impl Kind {
    // What stands before and behind the values that a value holds; none where it holds none.
    fn brackets(self) -> Option<(u8, u8)> {
        match self {
            Kind::Vec => Some((b'[', b']')),
            Kind::Tuple => Some((b'(', b')')),
            Kind::Object => Some((b'{', b'}')),
            _ => None,
        }
    }
}

// The output, and how far it is read, in bits.
#[derive(Drop)]
struct Reader<'a> {
    output: &'a [u8],
    bit: usize,
}

impl Reader<'_> {
    // The next field; past the output's end 0.
    fn field(&mut self, width: u32) -> u64 {
        let n = field(self.output, self.bit, width).unwrap_or(0);
        self.bit = self.bit.saturating_add(width as usize);
        n
    }

    fn octet(&mut self) -> u8 {
        (self.field(8) % 256) as u8
    }
}

// Text or bytes: a length in 16 bits, and so many bytes. In text those from 128 on are parts of characters.
fn quoted(reader: &mut Reader<'_>, kind: Kind, page: &mut Page<'_>) {
    let length = reader.field(16);
    page.byte(b'"');
    for _ in 0..length {
        let b = reader.octet();
        if kind == Kind::Text && !b.is_ascii() {
            page.byte(b);
        } else {
            page.escaped(b, b'"');
        }
    }
    page.byte(b'"');
}

// A character by its number. Every output's is one.
fn character(code: u64) -> char {
    u32::try_from(code)
        .ok()
        .and_then(char::from_u32)
        .unwrap_or(char::REPLACEMENT_CHARACTER)
}

fn quoted_character(page: &mut Page<'_>, c: char) {
    page.byte(b'\'');
    if c.is_ascii() {
        page.escaped(c as u8, b'\'');
    } else {
        let _ = page.write_char(c);
    }
    page.byte(b'\'');
}

// A value that holds no others; what would hold more levels than any output has reads as unit.
fn single(reader: &mut Reader<'_>, kind: Kind, page: &mut Page<'_>) {
    match kind {
        Kind::Bool => {
            let truth = reader.field(1) != 0;
            let _ = write!(page, "{truth}");
        }
        Kind::Unsigned => {
            let word = reader.field(64);
            let _ = write!(page, "{word}u");
        }
        Kind::Signed => {
            let word = reader.field(64).cast_signed();
            let _ = write!(page, "{word}");
        }
        Kind::Float => {
            let word = reader.field(64);
            let _ = write!(page, "0x{word:016x}");
        }
        Kind::Char => quoted_character(page, character(reader.field(21))),
        Kind::Text => quoted(reader, kind, page),
        Kind::Bytes => {
            page.byte(b'b');
            quoted(reader, kind, page);
        }
        Kind::Unit | Kind::Vec | Kind::Tuple | Kind::Object => page.bytes(b"unit"),
    }
}

// What stands before item i: a comma after the others, and of an object its key.
fn before_item(reader: &mut Reader<'_>, kind: Kind, i: u64, page: &mut Page<'_>) {
    if i > 0 {
        page.bytes(b", ");
    }
    if kind == Kind::Object {
        quoted(reader, Kind::Text, page);
        page.bytes(b": ");
    }
}

// A value that may hold so many levels of others.
fn nested(reader: &mut Reader<'_>, levels: u8, page: &mut Page<'_>) {
    let kind = Kind::from(reader.field(4));
    if levels == 0 {
        return single(reader, kind, page);
    }
    let Some((opening, closing)) = kind.brackets() else {
        return single(reader, kind, page);
    };
    let count = reader.field(12);
    page.byte(opening);
    for i in 0..count {
        before_item(reader, kind, i, page);
        nested(reader, levels - 1, page);
    }
    page.byte(closing);
}

// No output has more than 64 levels.
pub fn value(output: &[u8], page: &mut Page<'_>) {
    let mut reader = Reader { output, bit: 0 };
    nested(&mut reader, 64, page);
}
