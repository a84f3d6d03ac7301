// Numbers as bytes, in either order, at widths 2, 4 and 8. Any place will do: past the end a byte is 0.
#![tactic(auto)]

ghost use Rattle.std.specs.Prelude.{ℕ, ◌++◌, ◌≡◌};
ghost use Rattle.words.specs.Bytes.{low_bytes, number, number_at};

use slices::{byte_at, tail};

// Which byte of a number comes first: the lowest (ATA) or the highest (SCSI).
#[derive(Clone, Copy)]
pub enum Order {
    Little,
    Big,
}

// A number of so many bytes. The order is asked for only where it is turned, once a number.
pub trait Number {
    ghost width: { ℕ };

    ghost worth: { Self → ℕ };

    // The number that its low bytes are in an order.
    fn turned(self, o: Order) -> Self
        ensures { worth result ≡ number o (low_bytes width (worth self)) };

    // The number at a place.
    fn read(s: &[u8], at: usize, o: Order) -> Self
        ensures { worth result ≡ number_at o width s.now at };
}

impl Number for u16 {
    ghost width = { 2 };

    ghost worth = { λ x. x };

    fn turned(self, o: Order) -> u16 {
        match o {
            Order::Little => self,
            Order::Big => self.swap_bytes(),
        }
    }

    fn read(s: &[u8], at: usize, o: Order) -> u16 {
        let t = tail(s, at);
        let bytes = [byte_at(t, 0), byte_at(t, 1)];
        u16::from_le_bytes(bytes).turned(o)
    }
}

impl Number for u32 {
    ghost width = { 4 };

    ghost worth = { λ x. x };

    fn turned(self, o: Order) -> u32 {
        match o {
            Order::Little => self,
            Order::Big => self.swap_bytes(),
        }
    }

    fn read(s: &[u8], at: usize, o: Order) -> u32 {
        let t = tail(s, at);
        let bytes = [byte_at(t, 0), byte_at(t, 1), byte_at(t, 2), byte_at(t, 3)];
        u32::from_le_bytes(bytes).turned(o)
    }
}

impl Number for u64 {
    ghost width = { 8 };

    ghost worth = { λ x. x };

    fn turned(self, o: Order) -> u64 {
        match o {
            Order::Little => self,
            Order::Big => self.swap_bytes(),
        }
    }

    fn read(s: &[u8], at: usize, o: Order) -> u64 {
        let t = tail(s, at);
        let bytes = [
            byte_at(t, 0),
            byte_at(t, 1),
            byte_at(t, 2),
            byte_at(t, 3),
            byte_at(t, 4),
            byte_at(t, 5),
            byte_at(t, 6),
            byte_at(t, 7),
        ];
        u64::from_le_bytes(bytes).turned(o)
    }
}

// ---- Two numbers as one, whose low bytes are the first one's

pub fn joined2(a: u16, b: u16) -> u32
    ensures { low_bytes 4 result ≡ low_bytes 2 a ++ low_bytes 2 b }
{
    (b as u32) * 65536 + (a as u32)
}

pub fn joined4(a: u32, b: u32) -> u64
    ensures { low_bytes 8 result ≡ low_bytes 4 a ++ low_bytes 4 b }
{
    (b as u64) * 4294967296 + (a as u64)
}
