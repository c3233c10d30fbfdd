// The numbers of a line.
ghost use Rattle.std.specs.Prelude.{◌≡◌};
ghost use Rattle.session.specs.Numbers.{numeral, value};

// Whether a word has one decimal digit or more and nothing else.
fn is_numeral(word: &[u8]) -> bool
    ensures { result ≡ numeral word.now }
{
    !word.is_empty() && word.iter().all(u8::is_ascii_digit)
}

// The value of a word of digits, or the largest `usize` where that is too small for it.
pub fn number(word: &[u8]) -> Option<usize>
    ensures { result ≡ value word.now }
{
    if !is_numeral(word) {
        return None;
    }
    let value = word.iter().fold(0, |n: usize, b| {
        // no digit lies below `0`, so this does not wrap
        let digit = usize::from(b.wrapping_sub(b'0'));
        n.saturating_mul(10).saturating_add(digit)
    });
    Some(value)
}
