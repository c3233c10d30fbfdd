// The words of a line of bytes.
ghost use Rattle.std.specs.Prelude.{◌≡◌, not, position};
ghost use Rattle.std.specs.Iterator.{YieldsFirstRef, item_count};
ghost use Rattle.session.specs.Lines.{white, words, words_left};

use std::mem;

// What is left of a line, from which words are taken one by one. What it stands for is said by the iterator's own
// members. A type of its own, and no chain of `split` and `filter`: that would have the type of two closures, which no
// contract can name.
#[derive(Drop)]
pub struct Words<'a> {
    rest: &'a [u8],
}

// Whether a byte is ASCII white space. Vertical tab is, though `is_ascii_whitespace` leaves it out.
fn is_white(b: &u8) -> bool
    ensures { result ≡ white b.now }
{
    matches!(*b, b'\t'..=b'\r' | b' ')
}

// Where the first word of a line starts, if it has one.
fn start(line: &[u8]) -> Option<usize>
    ensures { result ≡ position (λ b. not (white b)) line.now }
{
    line.iter().position(|b| !is_white(b))
}

// Where the word at the front of a line ends, if white space follows it.
fn end(line: &[u8]) -> Option<usize>
    ensures { result ≡ position white line.now }
{
    line.iter().position(is_white)
}

impl<'a> Words<'a> {
    // All words of a line.
    pub fn new(line: &'a [u8]) -> Self
        ensures { words_left result ≡ words line.now }
    {
        Words { rest: line }
    }
}

impl<'a> Iterator for Words<'a> {
    type Item = &'a [u8];

    ghost next_gives = { YieldsFirstRef words_left };

    ghost remaining = { item_count words_left };

    fn next(&mut self) -> Option<&'a [u8]> {
        // what has no word is not put back, or each later call would go over it again
        let rest = mem::take(&mut self.rest);
        let line = &rest[start(rest)?..];
        let (word, rest) = line.split_at(end(line).unwrap_or(line.len()));
        self.rest = rest;
        Some(word)
    }
}
