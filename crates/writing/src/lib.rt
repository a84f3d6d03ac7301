// Words and numbers as text, stored straight into a lent buffer. A writer stores the whole text from a place on and answers where it ends; if it
// does not fit there, nothing, and the answer is the place itself.
#![tactic(auto)]

ghost use Rattle.std.specs.Prelude.{◌++◌, ◌≡◌, ◌+◌, ◌^◌, ◌<◌, length};
ghost use Rattle.slices.specs.Lists.{fits, stored, ended};
ghost use Rattle.text.specs.Digits.{digits, decimal_of};
ghost use Rattle.words.specs.Bytes.{low_bytes};
ghost use Rattle.writing.specs.Private as private;
ghost use Rattle.writing.specs.Writing.{number_line};

// ---- Hexadecimal

const GLYPHS: [u8; 16] = *b"0123456789ABCDEF";

// Two upper hexadecimal digits.
pub fn hex2(x: u8) -> [u8; 2]
    ensures { result ≡ digits 16 2 x }
{
    let glyphs = GLYPHS;
    [glyphs[(x / 16) as usize], glyphs[(x % 16) as usize]]
}

// Two upper hexadecimal digits of each of two bytes, side by side. Here and below not by `hex2`: the compiler would copy the table for each byte,
// and a listing takes a twentieth more instructions then.
pub fn hex_pair(a: u8, b: u8) -> [u8; 4]
    ensures { result ≡ digits 16 2 a ++ digits 16 2 b }
{
    let glyphs = GLYPHS;
    [
        glyphs[(a / 16) as usize],
        glyphs[(a % 16) as usize],
        glyphs[(b / 16) as usize],
        glyphs[(b % 16) as usize],
    ]
}

// Eight upper hexadecimal digits, two from each byte.
pub fn hex8(x: u32) -> [u8; 8]
    ensures { result ≡ digits 16 8 x }
{
    let glyphs = GLYPHS;
    let a = (x / 256 / 256 / 256 % 256) as u8;
    let b = (x / 256 / 256 % 256) as u8;
    let c = (x / 256 % 256) as u8;
    let d = (x % 256) as u8;
    [
        glyphs[(a / 16) as usize],
        glyphs[(a % 16) as usize],
        glyphs[(b / 16) as usize],
        glyphs[(b % 16) as usize],
        glyphs[(c / 16) as usize],
        glyphs[(c % 16) as usize],
        glyphs[(d / 16) as usize],
        glyphs[(d % 16) as usize],
    ]
}

// ---- A word

pub fn word(out: &mut [u8], at: usize, s: &[u8]) -> usize
    ensures out_after { out.new ≡ stored out.old at s.now }
    ensures value { result ≡ ended out.old at s.now }
{
    if !slices::does_fit(s.len(), at, out.len()) {
        return at;
    }
    slices::put(out, at, s);
    at + s.len()
}

// ---- Decimal digits

// The number whose two bytes, the lowest first, are the text of two digits. 12336 is 48 in both; 256 * n adds n to the high one, and for each ten
// 2559 less takes 10 from there and adds 1 to the low one.
fn two(n: u64) -> u64
    requires { n < 100 }
    ensures { (low_bytes 2 result ≡ digits 10 2 n) × (result < 256 ^ 2) }
{
    12336 + 256 * n - 2559 * (n / 10)
}

// Likewise of four digits.
fn four(n: u64) -> u64
    requires { n < 10 ^ 4 }
    ensures { (low_bytes 4 result ≡ digits 10 4 n) × (result < 256 ^ 4) }
{
    two(n / 100) + 65536 * two(n % 100)
}

// Of eight.
fn eight(n: u64) -> u64
    requires { n < 10 ^ 8 }
    ensures { low_bytes 8 result ≡ digits 10 8 n }
{
    four(n / 10000) + 4294967296 * four(n % 10000)
}

fn put_one(out: &mut [u8], at: usize, n: u64) -> usize
    requires { n < 10 }
    ensures { private.Puts out.old at (digits 10 1 n) out.new result }
{
    word(out, at, &[48 + n as u8])
}

fn put_two(out: &mut [u8], at: usize, n: u64) -> usize
    requires { n < 100 }
    ensures { private.Puts out.old at (digits 10 2 n) out.new result }
{
    word(out, at, &(two(n) as u16).to_le_bytes())
}

fn put_four(out: &mut [u8], at: usize, n: u64) -> usize
    requires { n < 10 ^ 4 }
    ensures { private.Puts out.old at (digits 10 4 n) out.new result }
{
    word(out, at, &(four(n) as u32).to_le_bytes())
}

fn put_eight(out: &mut [u8], at: usize, n: u64) -> usize
    requires { n < 10 ^ 8 }
    ensures { private.Puts out.old at (digits 10 8 n) out.new result }
{
    word(out, at, &eight(n).to_le_bytes())
}

// ---- A number in decimal, with no zero in front

// Of at most four digits.
fn put_short(out: &mut [u8], at: usize, n: u64) -> usize
    requires { n < 10 ^ 4 }
    ensures { private.Puts out.old at (decimal_of n) out.new result }
{
    if n < 10 {
        return put_one(out, at, n);
    }
    if n < 100 {
        return put_two(out, at, n);
    }
    if n < 1000 {
        let a = put_one(out, at, n / 100);
        return put_two(out, a, n % 100);
    }
    put_four(out, at, n)
}

// Of at most eight.
fn put_long(out: &mut [u8], at: usize, n: u64) -> usize
    requires { n < 10 ^ 8 }
    ensures { private.Puts out.old at (decimal_of n) out.new result }
{
    if n < 10000 {
        return put_short(out, at, n);
    }
    let a = put_short(out, at, n / 10000);
    put_four(out, a, n % 10000)
}

// Of at most twelve. `put_long` is not called here: of two callers it would be compiled into neither.
fn put_longer(out: &mut [u8], at: usize, n: u64) -> usize
    requires { n < 10 ^ 12 }
    ensures { private.Puts out.old at (decimal_of n) out.new result }
{
    if n < 10000 {
        return put_short(out, at, n);
    }
    if n < 100000000 {
        let a = put_short(out, at, n / 10000);
        return put_four(out, a, n % 10000);
    }
    let a = put_short(out, at, n / 100000000);
    put_eight(out, a, n % 100000000)
}

// Of any number, eight by a division.
fn put_any(out: &mut [u8], at: usize, n: u64) -> usize
    ensures { private.Puts out.old at (decimal_of n) out.new result }
{
    if n < 100000000 {
        return put_long(out, at, n);
    }
    let a = put_longer(out, at, n / 100000000);
    put_eight(out, a, n % 100000000)
}

// ---- A number, made apart and measured

// A short text: the last `count` bytes.
#[derive(Clone, Copy)]
struct Spelling {
    bytes: [u8; 20],
    count: usize,
}

// A number's digits, made apart to be measured: from the last to the first, a division for each, so that how many there are is known at the end.
fn decimal_of(n: u64) -> Spelling
    ensures { result ≡ private.spelled (decimal_of n) }
{
    let mut t = [0u8; 20];
    let mut rest = n;
    let mut m: usize = 0;
    while 10 <= rest {
        t[19 - m] = 48 + (rest % 10) as u8;
        rest /= 10;
        m += 1;
    }
    t[19 - m] = 48 + rest as u8;
    Spelling {
        bytes: t,
        count: m + 1,
    }
}

// How many digits it has in decimal.
pub fn width(n: u64) -> usize
    ensures { result ≡ length (decimal_of n) }
{
    decimal_of(n).count
}

impl Spelling {
    fn put(self, out: &mut [u8], at: usize) -> usize
        ensures out_after { out.new ≡ stored out.old at (private.shown self) }
        ensures value { result ≡ ended out.old at (private.shown self) }
    {
        let from = 20usize.saturating_sub(self.count);
        word(out, at, &self.bytes[from..])
    }
}

// A number in decimal. Each fits 20 bytes: where these are there, its digits are stored as they are made.
pub fn decimal(out: &mut [u8], at: usize, n: u64) -> usize
    ensures out_after { out.new ≡ stored out.old at (decimal_of n) }
    ensures value { result ≡ ended out.old at (decimal_of n) }
{
    if slices::does_fit(20, at, out.len()) {
        return put_any(out, at, n);
    }
    decimal_of(n).put(out, at)
}

// ---- After a word

// Whether two texts fit side by side from a place on.
fn do_fit(first: usize, second: usize, at: usize, room: usize) -> bool
    ensures { result ≡ fits (first + second) at room }
{
    slices::does_fit(first, at, room) && slices::does_fit(second, at + first, room)
}

// A word, then a number in decimal.
pub fn field(out: &mut [u8], at: usize, name: &[u8], n: u64) -> usize
    ensures out_after { out.new ≡ stored out.old at (name.now ++ decimal_of n) }
    ensures value { result ≡ ended out.old at (name.now ++ decimal_of n) }
{
    let number = decimal_of(n);
    if !do_fit(name.len(), number.count, at, out.len()) {
        return at;
    }
    let a = word(out, at, name);
    number.put(out, a)
}

// A line of a word and a number in decimal.
pub fn numbered(out: &mut [u8], at: usize, name: &[u8], n: u64) -> usize
    ensures out_after { out.new ≡ stored out.old at (number_line name.now n) }
    ensures value { result ≡ ended out.old at (number_line name.now n) }
{
    if !do_fit(name.len(), width(n) + 1, at, out.len()) {
        return at;
    }
    let a = field(out, at, name, n);
    word(out, a, b"\n")
}
