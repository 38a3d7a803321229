// A line of text, written from its left to its right.
ghost use Rattle.std.specs.Prelude.{◌≡◌, ◌+◌, ◌≤◌, [], ◌∷◌, ◌++◌, length};
ghost use Rattle.listing.specs.Columns.{figures};
ghost use Rattle.listing.specs.Fields.{further};
ghost use Rattle.listing.specs.Texts.{text, HasRoom};

use arrayvec::ArrayVec;
use itoa::{Buffer, Integer};

// One line of text, kept with no heap. There is room for seven numbers of 20 bytes each, which is what the largest take,
// a word or a letter beside them, and what parts them.
#[derive(Drop)]
pub struct Line {
    bytes: ArrayVec<u8, 160>,
}

impl Line {
    // A line on which nothing is written.
    pub(crate) fn blank() -> Line
        ensures { text result ≡ [] }
    {
        Line {
            bytes: ArrayVec::new(),
        }
    }

    // The line's bytes, all of them and no more.
    pub fn as_bytes(&self) -> &[u8]
        ensures { result.now ≡ text self.now }
    {
        self.bytes.as_slice()
    }

    // How many bytes it has.
    pub(crate) fn len(&self) -> usize
        ensures value { result ≡ length (text self.now) }
        ensures fits { result ≤ 160 }
    {
        self.bytes.len()
    }

    fn append(&mut self, bytes: &[u8])
        requires { HasRoom self.old (length bytes.now) }
        ensures { text self.new ≡ text self.old ++ bytes.now }
    {
        self.bytes.try_extend_from_slice(bytes).unwrap();
    }

    // A line with its first field.
    pub(crate) fn headed(field: &[u8]) -> Line
        requires { length field.now ≤ 160 }
        ensures { text result ≡ field.now }
    {
        let mut line = Line::blank();
        line.append(field);
        line
    }

    // One more field: a letter.
    pub(crate) fn then_letter(&mut self, letter: u8)
        requires { HasRoom self.old 2 }
        ensures text { text self.new ≡ text self.old ++ 44 ∷ letter ∷ [] }
        ensures length { length (text self.new) ≡ length (text self.old) + 2 }
    {
        self.append(&[b',', letter]);
    }

    // One more field: a number. One below zero is led by a hyphen.
    pub(crate) fn then_number<I: Integer>(&mut self, number: I)
        requires { HasRoom self.old (1 + I.MAX_STR_LEN) }
        ensures text { text self.new ≡ text self.old ++ 44 ∷ I.text number }
        ensures length { length (text self.new) ≤ length (text self.old) + 1 + I.MAX_STR_LEN }
    {
        self.append(b",");
        self.append(Buffer::new().format(number).as_bytes());
    }

    // The end of the line.
    pub(crate) fn end(&mut self)
        requires { HasRoom self.old 1 }
        ensures { text self.new ≡ text self.old ++ 10 ∷ [] }
    {
        self.append(b"\n");
    }

    // The last six fields, and the end of the line.
    pub(crate) fn end_with(&mut self, columns: &[i64; 6])
        requires { HasRoom self.old 127 }
        ensures { text self.new ≡ text self.old ++ (further (figures columns.now) ++ 10 ∷ []) }
    {
        for figure in columns {
            self.then_number(*figure);
        }
        self.end();
    }
}
