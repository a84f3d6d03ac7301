// Bytes stored as numbers, one after the other, so that each byte is stored once and in ascending order. What stands there afterwards is
// proved; how it is stored is seen in the compiled code (docs/TRUST.md).
#![tactic(auto)]

ghost use Rattle.std.specs.Prelude.{◌≡◌, ◌+◌, ◌-◌, ◌*◌, ◌≤◌, length, take};
ghost use Rattle.slices.specs.Lists.{fits, stored};
ghost use Rattle.words.specs.Bytes.{low_bytes};
ghost use Rattle.strokes.specs.Rows.{row_bytes, times};

// 32 bytes, as four numbers of eight, the lowest byte of each first.
#[derive(Clone, Copy)]
pub struct Row {
    pub first: u64,
    pub second: u64,
    pub third: u64,
    pub fourth: u64,
}

// ---- A number

// All of its bytes, if they fit.
fn put8(buf: &mut [u8], at: usize, x: u64)
    ensures { buf.new ≡ stored buf.old at (low_bytes 8 x) }
{
    slices::put(buf, at, &x.to_le_bytes());
}

// Its n low bytes, at most one. Here and below no loop goes over a number of bytes that the compiler does not know: it would become a call of
// memcpy or memset, which may store a byte twice.
fn put_low1(buf: &mut [u8], at: usize, x: u64, n: usize)
    requires { (n ≤ 1) × (at + n ≤ length buf.old) }
    ensures { buf.new ≡ stored buf.old at (low_bytes n x) }
{
    if n == 1 {
        buf[at] = (x % 256) as u8;
    }
}

// At most three.
fn put_low3(buf: &mut [u8], at: usize, x: u64, n: usize)
    requires { (n ≤ 3) × (at + n ≤ length buf.old) }
    ensures { buf.new ≡ stored buf.old at (low_bytes n x) }
{
    if n < 2 {
        put_low1(buf, at, x, n);
    } else {
        slices::put(buf, at, &((x % 65536) as u16).to_le_bytes());
        put_low1(buf, at + 2, x / 65536, n - 2);
    }
}

// At most seven.
fn put_low7(buf: &mut [u8], at: usize, x: u64, n: usize)
    requires { (n ≤ 7) × (at + n ≤ length buf.old) }
    ensures { buf.new ≡ stored buf.old at (low_bytes n x) }
{
    if n < 4 {
        put_low3(buf, at, x, n);
    } else {
        slices::put(buf, at, &((x % 4294967296) as u32).to_le_bytes());
        put_low3(buf, at + 4, x / 4294967296, n - 4);
    }
}

// As many of its bytes as there is room for.
fn put_some8(buf: &mut [u8], at: usize, x: u64)
    ensures { buf.new ≡ stored buf.old at (take (length buf.old - at) (low_bytes 8 x)) }
{
    if slices::does_fit(8, at, buf.len()) {
        put8(buf, at, x);
    } else if at < buf.len() {
        put_low7(buf, at, x, buf.len() - at);
    }
}

// ---- A row

impl Row {
    // All of it from a place on, if it fits there.
    pub fn put(self, buf: &mut [u8], at: usize)
        ensures { buf.new ≡ stored buf.old at (row_bytes self) }
    {
        if slices::does_fit(32, at, buf.len()) {
            put8(buf, at, self.first);
            put8(buf, at + 8, self.second);
            put8(buf, at + 16, self.third);
            put8(buf, at + 24, self.fourth);
        }
    }

    // From a place on as much of it as there is room for.
    pub fn put_some(self, buf: &mut [u8], at: usize)
        ensures { buf.new ≡ stored buf.old at (take (length buf.old - at) (row_bytes self)) }
    {
        if at < buf.len() {
            put_some8(buf, at, self.first);
            put_some8(buf, at + 8, self.second);
            put_some8(buf, at + 16, self.third);
            put_some8(buf, at + 24, self.fourth);
        }
    }
}

// ---- A number of four bytes, repeated

// Whether it fits n times from a place on.
fn is_room_for(n: usize, at: usize, room: usize) -> bool
    ensures { result ≡ fits (4 * n) at room }
{
    at <= room && n <= (room - at) / 4
}

// Stores it n times. There is room.
fn put_each(buf: &mut [u8], at: usize, x: u32, n: usize)
    requires { at + 4 * n ≤ length buf.old }
    ensures { buf.new ≡ stored buf.old at (times n x) }
{
    for k in 0..n {
        let i = at + 4 * k;
        slices::put(&mut buf[i..i + 4], 0, &x.to_le_bytes());
    }
}

// The same in runs of 128, whose length the compiler knows: it leaves out their loop.
fn put_runs(buf: &mut [u8], at: usize, x: u32, n: usize)
    requires { at + 4 * n ≤ length buf.old }
    ensures { buf.new ≡ stored buf.old at (times n x) }
{
    let runs = n / 128;
    for k in 0..runs {
        put_each(buf, at + 512 * k, x, 128);
    }
    put_each(buf, at + 512 * runs, x, n % 128);
}

// Stores a number n times, side by side from a place on, if all of it fits there.
pub fn put_times(buf: &mut [u8], at: usize, x: u32, n: usize)
    ensures { buf.new ≡ stored buf.old at (times n x) }
{
    if is_room_for(n, at, buf.len()) {
        put_runs(buf, at, x, n);
    }
}
