// A line's words.
ghost use Rattle.std.specs.Prelude.{◌≡◌, ◌≤◌, length, drop};
ghost use Rattle.lines.specs.Parts.{drop_while, from_word, word_at, named, is_passed};
ghost use Rattle.lines.specs.Private as private;

fn is_spaced(b: u8, space: bool) -> bool
    ensures { result ≡ private.space_or space b }
{
    if space { b == 32 } else { b != 32 }
}

// The first place from `from` on whose byte is no space; with `space` false, whose byte is one.
fn skip(line: &[u8], from: usize, space: bool) -> usize
    requires { from ≤ length line.now }
    ensures { (drop result line.now ≡ drop_while (private.space_or space) (drop from line.now)) × (from ≤ result) × (result ≤ length line.now) }
{
    for at in from..line.len() {
        if !is_spaced(line[at], space) {
            return at;
        }
    }
    line.len()
}

// Where word k starts.
fn start_of(line: &[u8], k: usize) -> usize
    ensures { (drop result line.now ≡ from_word k line.now) × (result ≤ length line.now) }
{
    let mut at = skip(line, 0, true);
    for _ in 0..k {
        at = skip(line, skip(line, at, false), true);
    }
    at
}

// Word k; empty if there is none.
pub fn word_at(line: &[u8], k: usize) -> &[u8]
    ensures { result.now ≡ word_at k line.now }
{
    let start = start_of(line, k);
    let end = skip(line, start, false);
    &line[start..end]
}

// Whether a line has this name, and no more than so many words.
pub fn is_named(line: &[u8], name: &[u8], words: usize) -> bool
    ensures { result ≡ named name.now words line.now }
{
    word_at(line, 0) == name && word_at(line, words).is_empty()
}

// Whether a line is passed over.
pub fn is_passed(line: &[u8]) -> bool
    ensures { result ≡ is_passed line.now }
{
    match word_at(line, 0) {
        [] => true,
        [first, ..] => *first == b'#',
    }
}
