// A page of N bytes that text is put on, part behind part. What does not fit is cut off.
ghost use Rattle.std.specs.Prelude.{◌≡◌, ◌++◌, ◌+◌, ◌-◌, min, length, take};
ghost use Rattle.text.specs.Text.{newline, decimal, signed};
ghost use Rattle.text.specs.Page.{blank, Adds};

use crate::{put_bytes, put_decimal, put_signed};

// The text is at the front of the bytes: as many of them as `len` says. A page that began blank has zeros behind it.
// Fixed memory: no String.
#[derive(Clone, Copy)]
pub struct Page<const N: usize> {
    pub bytes: [u8; N],
    pub len: usize,
}

impl<const N: usize> Page<N> {
    // A page with nothing on it.
    #[tactic(auto, unfolding(crate::specs::Page::blank))]
    pub fn new() -> Self
        ensures { result ≡ blank N }
    {
        Page {
            bytes: [0; N],
            len: 0,
        }
    }

    // The text on it.
    pub fn text(&self) -> &[u8]
        ensures { result.now ≡ take self.now.len self.now.bytes }
    {
        &self.bytes[..self.len.min(N)]
    }

    // n bytes more belong to the text, or as many as there is room for.
    fn grow(&mut self, n: usize)
        ensures bytes { self.new.bytes ≡ self.old.bytes }
        ensures len { self.new.len ≡ self.old.len + min n (length self.old.bytes - self.old.len) }
    {
        self.len += n.min(N.saturating_sub(self.len));
    }

    // Some words.
    pub fn words(&mut self, words: &[u8])
        ensures { Adds self.old self.new words.now }
    {
        put_bytes(&mut self.bytes, self.len, words);
        self.grow(words.len());
    }

    // A number in decimal.
    pub fn number(&mut self, x: u64)
        ensures { Adds self.old self.new (decimal x) }
    {
        let n = put_decimal(&mut self.bytes, self.len, x);
        self.grow(n);
    }

    // A number in decimal with its sign.
    pub fn signed(&mut self, x: i64)
        ensures { Adds self.old self.new (signed x) }
    {
        let n = put_signed(&mut self.bytes, self.len, x);
        self.grow(n);
    }

    // Some words and a number.
    pub fn labelled(&mut self, label: &[u8], x: u64)
        ensures { Adds self.old self.new (label.now ++ decimal x) }
    {
        self.words(label);
        self.number(x);
    }

    // A line's end: byte 10.
    pub fn end_line(&mut self)
        ensures { Adds self.old self.new newline }
    {
        self.words(b"\n");
    }
}
