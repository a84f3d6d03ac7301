// What device and reader share of a status page: the header and the descriptor, in either byte order.
#![tactic(auto)]

ghost use Rattle.std.specs.Prelude.{◌≡◌, ◌<◌, length, drop, replicate};
ghost use Rattle.slices.specs.Lists.{stored};
ghost use Rattle.strokes.specs.Rows.{row_bytes};
ghost use Rattle.layout.specs.Bytes.{header_bytes, header_in, descriptor_bytes, descriptor_in};

use paper::ElementId;
use strokes::Row;
use words::{Number, Order};

// The numbers of a page's first 32 bytes.
#[repr(C)]
#[derive(Clone, Copy)]
pub struct Header {
    pub number: u32,
    pub returned: u32,
    pub busy: ElementId,
    pub limit: u16,
    pub removed: u16,
}

// An element as a page shows it; `kind` is document 01's type, a word that the language keeps.
#[repr(C)]
#[derive(Clone, Copy)]
pub struct Descriptor {
    pub id: ElementId,
    pub restorable: bool,
    pub kind: u8,
    pub health: u8,
    pub capacity: u64,
}

impl Header {
    // Its 32 bytes.
    pub fn row(self, o: Order) -> Row
        ensures { row_bytes result ≡ header_bytes o self }
    {
        let number = self.number.turned(o);
        let returned = self.returned.turned(o);
        let busy = self.busy.0.turned(o);
        let limit = self.limit.turned(o);
        let removed = self.removed.turned(o);
        Row {
            first: words::joined4(number, returned),
            second: words::joined4(busy, words::joined2(limit, removed)),
            third: 0,
            fourth: 0,
        }
    }

    // The header that a slice starts with; a byte past its end counts as 0.
    pub fn read(s: &[u8], o: Order) -> Header
        ensures { result ≡ header_in o s.now }
    {
        match s.first_chunk::<32>() {
            Some(bytes) => Header::whole(bytes, o),
            None => Header::part(s, o),
        }
    }

    #[inline(never)]
    fn part(s: &[u8], o: Order) -> Header
        requires { length s.now < 32 }
        ensures { result ≡ header_in o s.now }
    {
        Header::whole(&padded(s), o)
    }

    fn whole(bytes: &[u8; 32], o: Order) -> Header
        ensures { result ≡ header_in o bytes.now }
    {
        Header {
            number: u32::read(bytes, 0, o),
            returned: u32::read(bytes, 4, o),
            busy: ElementId(u32::read(bytes, 8, o)),
            limit: u16::read(bytes, 12, o),
            removed: u16::read(bytes, 14, o),
        }
    }
}

impl Descriptor {
    // Its 32 bytes.
    pub fn row(self, o: Order) -> Row
        ensures { row_bytes result ≡ descriptor_bytes o self }
    {
        let id = self.id.0.turned(o);
        let restorable = slices::bit(self.restorable);
        let marks = u32::from_le_bytes([0, restorable, self.kind, self.health]);
        Row {
            first: words::joined4(0, id),
            second: words::joined4(0, marks),
            third: self.capacity.turned(o),
            fourth: 0,
        }
    }

    // The descriptor that a slice starts with.
    pub fn read(s: &[u8], o: Order) -> Descriptor
        ensures { result ≡ descriptor_in o s.now }
    {
        match s.first_chunk::<32>() {
            Some(bytes) => Descriptor::whole(bytes, o),
            None => Descriptor::part(s, o),
        }
    }

    // The descriptor that stands from a place on.
    pub fn read_at(s: &[u8], at: usize, o: Order) -> Descriptor
        ensures { result ≡ descriptor_in o (drop at s.now) }
    {
        if !slices::does_fit(32, at, s.len()) {
            return Descriptor::part(slices::tail(s, at), o);
        }
        Descriptor::read(&s[at..at + 32], o)
    }

    #[inline(never)]
    fn part(s: &[u8], o: Order) -> Descriptor
        requires { length s.now < 32 }
        ensures { result ≡ descriptor_in o s.now }
    {
        Descriptor::whole(&padded(s), o)
    }

    fn whole(bytes: &[u8; 32], o: Order) -> Descriptor
        ensures { result ≡ descriptor_in o bytes.now }
    {
        let flags = bytes[13];
        Descriptor {
            id: ElementId(u32::read(bytes, 4, o)),
            restorable: flags % 2 == 1,
            kind: bytes[14],
            health: bytes[15],
            capacity: u64::read(bytes, 16, o),
        }
    }
}

// Fewer than 32 bytes, and zeros after them.
fn padded(s: &[u8]) -> [u8; 32]
    ensures { result ≡ stored (replicate 32 0) 0 s.now }
{
    let mut bytes = [0; 32];
    slices::put(&mut bytes, 0, s);
    bytes
}
