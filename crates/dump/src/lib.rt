// A lent buffer as the bench shows it, stored straight into another: a page or data in rows of hexadecimal digits, and the first byte that was
// touched.
#![tactic(auto)]

ghost use Rattle.std.specs.Prelude.{◌≡◌, ◌*◌, ◌≤◌, ◌<◌, length, take, drop};
ghost use Rattle.slices.specs.Lists.{stored, ended};
ghost use Rattle.text.specs.Digits.{glyph, digits};
ghost use Rattle.writing.specs.Private as writing·private;
ghost use Rattle.writing.specs.Writing.{stored_in, ended_in};
ghost use Rattle.dump.specs.Dump.{row_line, rows_below, is_zero, rows_shown, zeros_line, page_text, data_lines, data_text, first_touched, touched_text};
ghost use Rattle.dump.specs.Private as private;

// ---- A page

fn digit(d: u8) -> u8
    requires { d < 16 }
    ensures { result ≡ glyph d }
{
    if d < 10 { 48 + d } else { 55 + d }
}

// Two upper hexadecimal digits: by sums and not from a table, so that the compiler makes those of many bytes at once.
fn pair(x: u8) -> [u8; 2]
    ensures { result ≡ digits 16 2 x }
{
    [digit(x / 16 % 16), digit(x % 16)]
}

// The line of the 32 bytes at the front.
fn row(bytes: &[u8]) -> [u8; 65]
    requires { 32 ≤ length bytes.now }
    ensures { result ≡ row_line (take 32 bytes.now) }
{
    let mut line = [b'\n'; 65];
    for k in 0..32 {
        let digits = pair(bytes[k]);
        slices::put(&mut line, 2 * k, &digits);
    }
    line
}

// Whether the 32 bytes at the front are zero.
fn is_zero(bytes: &[u8]) -> bool
    requires { 32 ≤ length bytes.now }
    ensures { result ≡ is_zero (take 32 bytes.now) }
{
    for k in 0..32 {
        if bytes[k] != 0 {
            return false;
        }
    }
    true
}

// How many of the first n rows come before the run of all-zero rows at their end.
fn shown_rows(page: &[u8], n: usize) -> usize
    requires { 32 * n ≤ length page.now }
    ensures { (result ≡ rows_shown page.now n) × (result ≤ n) }
{
    for k in (0..n).rev() {
        if !is_zero(slices::tail(page, 32 * k)) {
            return k + 1;
        }
    }
    0
}

fn put_rows(out: &mut [u8], at: usize, page: &[u8], n: usize) -> usize
    requires { 32 * n ≤ length page.now }
    ensures { writing·private.Puts out.old at (rows_below page.now n) out.new result }
{
    let mut end = at;
    for k in 0..n {
        let line = row(slices::tail(page, 32 * k));
        end = writing::word(out, end, &line);
    }
    end
}

fn put_zeros(out: &mut [u8], at: usize, n: usize) -> usize
    ensures { writing·private.Puts out.old at (zeros_line n) out.new result }
{
    if n == 0 {
        return at;
    }
    writing::numbered(out, at, b"zeros ", n as u64)
}

// A row for each whole 32 bytes, and how many all-zero rows there are at the end; nothing, where fewer than 134,000 bytes are there, which are
// enough for every page.
pub fn put_page(out: &mut [u8], at: usize, page: &[u8]) -> usize
    ensures out_after { out.new ≡ stored_in 134000 out.old at (page_text page.now) }
    ensures value { result ≡ ended_in 134000 out.old at (page_text page.now) }
{
    if !slices::does_fit(134000, at, out.len()) {
        return at;
    }
    let whole = slices::head(page, 65536);
    let rows = whole.len() / 32;
    let shown = shown_rows(whole, rows);
    let end = put_rows(out, at, whole, shown);
    put_zeros(out, end, rows - shown)
}

// ---- Data

// The last row, if it has a byte: the front of a whole row's line.
fn put_last(out: &mut [u8], at: usize, bytes: &[u8]) -> usize
    requires { length bytes.now < 32 }
    ensures { writing·private.Puts out.old at (private.last_line bytes.now) out.new result }
{
    if bytes.len() == 0 {
        return at;
    }
    let mut whole = [0; 32];
    slices::put(&mut whole, 0, bytes);
    let line = row(&whole);
    let a = writing::word(out, at, slices::head(&line, 2 * bytes.len()));
    writing::word(out, a, b"\n")
}

// How many bytes there are, and a row for each 32 of them.
fn put_lines(out: &mut [u8], at: usize, bytes: &[u8]) -> usize
    ensures { writing·private.Puts out.old at (data_lines bytes.now) out.new result }
{
    let rows = bytes.len() / 32;
    let a = writing::numbered(out, at, b"bytes ", bytes.len() as u64);
    let b = put_rows(out, a, bytes, rows);
    put_last(out, b, slices::tail(bytes, 32 * rows))
}

// They are stored as a page is; 134,000 bytes are enough for all data.
pub fn put_data(out: &mut [u8], at: usize, bytes: &[u8]) -> usize
    ensures out_after { out.new ≡ stored_in 134000 out.old at (data_text bytes.now) }
    ensures value { result ≡ ended_in 134000 out.old at (data_text bytes.now) }
{
    if !slices::does_fit(134000, at, out.len()) {
        return at;
    }
    put_lines(out, at, slices::head(bytes, 65536))
}

// ---- What was left alone

// The place of the first byte from a place on that is not A5h any more; without one, past the end.
fn first_touched(lent: &[u8], from: usize) -> usize
    ensures { result ≡ first_touched from (drop from lent.now) }
{
    for i in from..lent.len() {
        if lent[i] != 0xA5 {
            return i;
        }
    }
    from.max(lent.len())
}

// The line of this byte, if there is one.
pub fn put_touched(out: &mut [u8], at: usize, lent: &[u8], from: usize) -> usize
    ensures out_after { out.new ≡ stored out.old at (touched_text lent.now from) }
    ensures value { result ≡ ended out.old at (touched_text lent.now from) }
{
    let place = first_touched(lent, from);
    if lent.len() <= place {
        return at;
    }
    writing::numbered(out, at, b"touched ", place as u64)
}
