// The parts of a slice, and bytes at a place. Any place will do: past the end a byte is 0, and bytes that do not fit are not stored. And the
// smaller of two numbers, and a test's bit.
#![tactic(auto)]

ghost use Rattle.std.specs.Prelude.{◌≡◌, ◌+◌, ◌-◌, ◌≤◌, min, length, get_or, take, drop, replicate};
ghost use Rattle.std.proofs.Math.Seq.{paste};
ghost use Rattle.slices.specs.Lists.{fits, stored, one};

pub fn byte_at(s: &[u8], at: usize) -> u8
    ensures { result ≡ get_or s.now at 0 }
{
    s.get(at).copied().unwrap_or(0)
}

pub fn smaller(a: usize, b: usize) -> usize
    ensures { result ≡ min a b }
{
    a.min(b)
}

pub fn bit(b: bool) -> u8
    ensures { result ≡ one b }
{
    b as u8
}

// The first n bytes, or all if these are fewer.
pub fn head(s: &[u8], n: usize) -> &[u8]
    ensures { result.now ≡ take n s.now }
{
    s.get(..n).unwrap_or(s)
}

// What stands from a place on, nothing past the end.
pub fn tail(s: &[u8], at: usize) -> &[u8]
    ensures { result.now ≡ drop at s.now }
{
    s.get(at..).unwrap_or(&[])
}

// Whether n bytes fit from a place on.
pub fn does_fit(n: usize, at: usize, room: usize) -> bool
    ensures { result ≡ fits n at room }
{
    n <= room && at <= room - n
}

fn copy(buf: &mut [u8], at: usize, b: &[u8])
    requires { at + length b.now ≤ length buf.old }
    ensures { buf.new ≡ paste buf.old at b.now (length b.now) }
{
    for (k, x) in b.iter().enumerate() {
        buf[at + k] = *x;
    }
}

// Stores bytes from a place on, if all of them fit.
pub fn put(buf: &mut [u8], at: usize, b: &[u8])
    ensures { buf.new ≡ stored buf.old at b.now }
{
    if does_fit(b.len(), at, buf.len()) {
        copy(buf, at, b);
    }
}

// Stores zeros from a place up to another, if the buffer goes as far.
pub fn clear(buf: &mut [u8], from: usize, to: usize)
    ensures { buf.new ≡ stored buf.old from (replicate (to - from) 0) }
{
    if from <= to && to <= buf.len() {
        buf[from..to].fill(0);
    }
}
