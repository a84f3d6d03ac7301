// Lines put together from pieces of input.
#![tactic(auto)]

ghost use Rattle.std.specs.Prelude.{◌≡◌, drop};
ghost use Rattle.pieces.specs.Pieces as spec;

// A line as far as it was read: its first `len` bytes; 201 if there are more than 200. Its room is fixed: nothing here is on the heap.
#[derive(Clone, Copy)]
pub struct Gathered {
    pub bytes: [u8; 200],
    pub len: usize,
}

// A line after a piece of input: where the piece goes on, and whether the line has ended.
#[derive(Clone, Copy)]
pub struct Taken {
    pub line: Gathered,
    pub at: usize,
    pub whole: bool,
}

pub fn is_long(line: &[u8]) -> bool
    ensures { result ≡ spec.is_long line.now }
{
    200 < line.len()
}

impl Gathered {
    pub fn nothing() -> Gathered
        ensures { result ≡ spec.nothing }
    {
        Gathered {
            bytes: [0u8; 200],
            len: 0,
        }
    }

    pub fn push(&mut self, b: u8)
        ensures { self.new ≡ spec.pushed self.old b }
    {
        if self.len < 200 {
            self.bytes[self.len] = b;
            self.len += 1;
        } else {
            self.len = 201;
        }
    }

    // The line with what a piece adds from a place on, up to the next newline or the piece's end.
    pub fn take(self, piece: &[u8], from: usize) -> Taken
        ensures { result ≡ spec.taken_from self (drop from piece.now) from }
    {
        let mut line = self;
        for at in from..piece.len() {
            if piece[at] == b'\n' {
                return Taken {
                    line,
                    at: at + 1,
                    whole: true,
                };
            }
            line.push(piece[at]);
        }
        Taken {
            line,
            at: from.max(piece.len()),
            whole: false,
        }
    }
}
