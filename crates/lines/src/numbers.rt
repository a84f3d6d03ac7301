// Hexadecimal numbers in either case.
ghost use Rattle.std.specs.Prelude.{◌≡◌, ◌≤◌, IfSome};
ghost use Rattle.lines.specs.Numbers.{field_of, field_at};
ghost use Rattle.lines.specs.Private as private;

use crate::parts::word_at;

// A digit's value.
fn digit(c: u8) -> Option<u64>
    ensures { result ≡ private.digit_at c }
{
    match c {
        b'0'..=b'9' => Some((c - 48) as u64),
        b'A'..=b'F' => Some((c - 55) as u64),
        b'a'..=b'f' => Some((c - 87) as u64),
        _ => None,
    }
}

// The number that a word is, if it is at most `most`.
fn number(word: &[u8], most: u64) -> Option<u64>
    ensures { result ≡ field_of most word.now }
{
    if word.is_empty() || 16 < word.len() {
        return None;
    }
    let mut value: u64 = 0;
    for &c in word {
        value = value * 16 + digit(c)?;
    }
    if most < value {
        return None;
    }
    Some(value)
}

// Word k of a line as a number of at most `most`.
pub fn field_at(line: &[u8], k: usize, most: u64) -> Option<u64>
    ensures value { result ≡ field_at line.now k most }
    ensures most { IfSome result (λ value. value ≤ most) }
{
    number(word_at(line, k), most)
}
