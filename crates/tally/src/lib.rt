// The line that ends the text of SCSI data that is not whole, stored straight into a lent buffer: of N descriptors K are there whole, and
// perhaps a part of the next.
#![tactic(auto)]

ghost use Rattle.std.specs.Prelude.{◌≡◌, ◌+◌, length};
ghost use Rattle.slices.specs.Lists.{stored, ended};
ghost use Rattle.text.specs.Digits.{decimal_of};
ghost use Rattle.writing.specs.Private as writing·private;
ghost use Rattle.tally.specs.Tally.{count_line, tally_line};

// How many descriptors are there whole, of how many, and whether the next one is cut through.
#[derive(Clone, Copy)]
pub struct Tally {
    pub whole: u32,
    pub number: u32,
    pub torn: bool,
}

impl Tally {
    fn digits_width(self) -> usize
        ensures { result ≡ length (decimal_of self.whole) + length (decimal_of self.number) }
    {
        writing::width(self.whole as u64) + writing::width(self.number as u64)
    }

    // How long the line is.
    pub fn width(self) -> usize
        ensures { result ≡ length (tally_line self.whole self.number self.torn) }
    {
        if self.torn {
            return 10 + self.digits_width();
        }
        if self.whole < self.number {
            return 9 + self.digits_width();
        }
        0
    }

    fn put_count(self, out: &mut [u8], at: usize, name: &[u8]) -> usize
        ensures { writing·private.Puts out.old at (count_line name.now self.whole self.number) out.new result }
    {
        let a = writing::field(out, at, name, self.whole as u64);
        writing::numbered(out, a, b" of ", self.number as u64)
    }

    fn put_line(self, out: &mut [u8], at: usize) -> usize
        ensures { writing·private.Puts out.old at (tally_line self.whole self.number self.torn) out.new result }
    {
        if self.torn {
            return self.put_count(out, at, b"torn ");
        }
        if self.whole < self.number {
            return self.put_count(out, at, b"cut ");
        }
        at
    }

    // Stores the line from a place on and answers where it ends; nothing, if it does not fit.
    pub fn put(self, out: &mut [u8], at: usize) -> usize
        ensures out_after { out.new ≡ stored out.old at (tally_line self.whole self.number self.torn) }
        ensures value { result ≡ ended out.old at (tally_line self.whole self.number self.torn) }
    {
        if !slices::does_fit(self.width(), at, out.len()) {
            return at;
        }
        self.put_line(out, at)
    }
}
