// The lines of a listing: a descriptor's, and an element's values, stored straight into a lent buffer.
#![tactic(auto)]

ghost use Rattle.std.specs.Prelude.{◌≡◌, eqb, length};
ghost use Rattle.layout.specs.Bytes.{all_ones};
ghost use Rattle.slices.specs.Lists.{fits, stored, ended};
ghost use Rattle.writing.specs.Private as writing·private;
ghost use Rattle.rows.specs.Private as private;
ghost use Rattle.rows.specs.Rows.{capacity_of, values_of, descriptor_line};

use layout::Descriptor;
use paper::ElementId;

// ---- A capacity

// Whether it is all ones.
fn is_unreported(blocks: u64) -> bool
    ensures { result ≡ eqb blocks all_ones }
{
    blocks == 0xFFFF_FFFF_FFFF_FFFF
}

fn capacity_width(blocks: u64) -> usize
    ensures { result ≡ length (capacity_of blocks) }
{
    if is_unreported(blocks) {
        return 1;
    }
    writing::width(blocks)
}

fn put_capacity(out: &mut [u8], at: usize, blocks: u64) -> usize
    ensures out_after { out.new ≡ stored out.old at (capacity_of blocks) }
    ensures value { result ≡ ended out.old at (capacity_of blocks) }
{
    if is_unreported(blocks) {
        return writing::word(out, at, b"-");
    }
    writing::decimal(out, at, blocks)
}

// ---- An element's values

// Type and health, each with the space after it.
fn grade(kind: u8, health: u8) -> [u8; 6]
    ensures { result ≡ private.grade_of kind health }
{
    let g = writing::hex_pair(kind, health);
    [g[0], g[1], 32, g[2], g[3], 32]
}

// How long they are.
pub fn values_width(d: Descriptor) -> usize
    ensures { result ≡ length (values_of d) }
{
    6 + capacity_width(d.capacity)
}

// Stores them at the front of a part of 26 bytes, in which all of them fit, and answers how long they are.
fn put_front(part: &mut [u8], kind: u8, health: u8, capacity: u64) -> usize
    requires { length part.old ≡ 26 }
    ensures part_after { part.new ≡ stored part.old 0 (private.values_for kind health capacity) }
    ensures value { result ≡ length (private.values_for kind health capacity) }
{
    let begun = grade(kind, health);
    slices::put(&mut part[0..6], 0, &begun);
    6 + put_capacity(&mut part[6..26], 0, capacity)
}

// Stores them from a place on and answers where they end; nothing, if they do not fit. Where 26 bytes are not there they are made apart.
pub fn put_values(out: &mut [u8], at: usize, d: Descriptor) -> usize
    ensures out_after { out.new ≡ stored out.old at (values_of d) }
    ensures value { result ≡ ended out.old at (values_of d) }
{
    if slices::does_fit(26, at, out.len()) {
        return at + put_front(&mut out[at..at + 26], d.kind, d.health, d.capacity);
    }
    let mut apart = [0u8; 26];
    let size = put_front(&mut apart, d.kind, d.health, d.capacity);
    writing::word(out, at, &apart[..size])
}

// ---- A descriptor's line

// The identifier and the space after it.
fn head(id: ElementId) -> [u8; 9]
    ensures { result ≡ private.head_of id.0 }
{
    let i = writing::hex8(id.0);
    [i[0], i[1], i[2], i[3], i[4], i[5], i[6], i[7], 32]
}

// How long it is.
pub fn descriptor_width(d: Descriptor) -> usize
    ensures { result ≡ length (descriptor_line d) }
{
    16 + capacity_width(d.capacity)
}

// Whether a descriptor's line fits from a place on. Each fits 36 bytes, so that where these are there nothing is measured.
fn line_fits(d: Descriptor, at: usize, room: usize) -> bool
    ensures { result ≡ fits (length (descriptor_line d)) at room }
{
    if slices::does_fit(36, at, room) {
        return true;
    }
    slices::does_fit(descriptor_width(d), at, room)
}

// Identifier, values and the line's end.
fn put_parts(out: &mut [u8], at: usize, d: Descriptor) -> usize
    ensures { writing·private.Puts out.old at (descriptor_line d) out.new result }
{
    let begun = head(d.id);
    let a = writing::word(out, at, &begun);
    let b = put_values(out, a, d);
    writing::word(out, b, b"\n")
}

// Stores a descriptor's line from a place on and answers where it ends; nothing, if it does not fit.
pub fn put_descriptor(out: &mut [u8], at: usize, d: Descriptor) -> usize
    ensures out_after { out.new ≡ stored out.old at (descriptor_line d) }
    ensures value { result ≡ ended out.old at (descriptor_line d) }
{
    if !line_fits(d, at, out.len()) {
        return at;
    }
    put_parts(out, at, d)
}
