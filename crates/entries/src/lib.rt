// The lines of a list's descriptors, in either byte order, stored straight into a lent buffer.
#![tactic(auto)]

ghost use Rattle.std.specs.Prelude.{◌≡◌, length};
ghost use Rattle.slices.specs.Lists.{fits, stored, ended};
ghost use Rattle.writing.specs.Private as writing·private;
ghost use Rattle.entries.specs.Entries.{lines_of};

use layout::Descriptor;
use words::Order;

// How long the lines of the first `count` descriptors are; 0, if these are not all there.
pub fn width(bytes: &[u8], count: u32, o: Order) -> usize
    ensures { result ≡ length (lines_of o bytes.now count) }
{
    if bytes.len() < 32 + 32 * (count as usize) {
        return 0;
    }
    let mut size: usize = 0;
    for k in 0..count {
        let d = offences::descriptor_at(bytes, k, o);
        size += rows::descriptor_width(d);
    }
    size
}

// Whether they fit from a place on. Each fits 36 bytes, so that where these are there for each nothing is measured.
fn lines_fit(bytes: &[u8], count: u32, o: Order, at: usize, room: usize) -> bool
    ensures { result ≡ fits (length (lines_of o bytes.now count)) at room }
{
    if slices::does_fit(36 * (count as usize), at, room) {
        return true;
    }
    slices::does_fit(width(bytes, count, o), at, room)
}

// That all are there is asked once, so that no byte is tested for. Counted by places: by numbers, in a `for`, each line takes five instructions more.
fn put_each(bytes: &[u8], count: u32, o: Order, out: &mut [u8], from: usize) -> usize
    ensures { writing·private.Puts out.old from (lines_of o bytes.now count) out.new result }
{
    let end = 32 + 32 * (count as usize);
    if bytes.len() < end {
        return from;
    }
    let mut at = from;
    let mut place: usize = 32;
    while place < end {
        let d = Descriptor::read(&bytes[place..place + 32], o);
        at = rows::put_descriptor(out, at, d);
        place += 32;
    }
    at
}

// Stores them from a place on and answers where they end; nothing, if they are not all there or do not fit.
pub fn put(bytes: &[u8], count: u32, o: Order, out: &mut [u8], at: usize) -> usize
    ensures out_after { out.new ≡ stored out.old at (lines_of o bytes.now count) }
    ensures value { result ≡ ended out.old at (lines_of o bytes.now count) }
{
    if !lines_fit(bytes, count, o, at, out.len()) {
        return at;
    }
    put_each(bytes, count, o, out, at)
}
