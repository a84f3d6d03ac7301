// What is open during a removal (002): a constant table of opcodes, subcommands and log addresses, and its search.
#![tactic(auto)]

ghost use Rattle.std.specs.Prelude.{◌≡◌};
ghost use Rattle.open.specs.Open.{is_open};
ghost use Rattle.open.specs.Private as private;

// A form of a command: its code, and for FEATURE and LBA a mask and what it must leave. Mask 0: any; FFh: bits 7:0; FFF_FFFFh: bits 27:0.
#[derive(Clone, Copy)]
struct Row {
    code: u8,
    feature_mask: u16,
    feature: u16,
    lba_mask: u32,
    lba: u32,
}

const OPEN: [Row; 16] = [
    Row {
        code: 0xEC,
        feature_mask: 0,
        feature: 0,
        lba_mask: 0,
        lba: 0,
    },
    Row {
        code: 0xE1,
        feature_mask: 0xFF,
        feature: 0x44,
        lba_mask: 0xFFF_FFFF,
        lba: 0x055_4E4C,
    },
    Row {
        code: 0x2F,
        feature_mask: 0,
        feature: 0,
        lba_mask: 0xFF,
        lba: 0x04,
    },
    Row {
        code: 0x47,
        feature_mask: 0,
        feature: 0,
        lba_mask: 0xFF,
        lba: 0x04,
    },
    Row {
        code: 0x2F,
        feature_mask: 0,
        feature: 0,
        lba_mask: 0xFF,
        lba: 0x10,
    },
    Row {
        code: 0x47,
        feature_mask: 0,
        feature: 0,
        lba_mask: 0xFF,
        lba: 0x10,
    },
    Row {
        code: 0x2F,
        feature_mask: 0,
        feature: 0,
        lba_mask: 0xFF,
        lba: 0x30,
    },
    Row {
        code: 0x47,
        feature_mask: 0,
        feature: 0,
        lba_mask: 0xFF,
        lba: 0x30,
    },
    Row {
        code: 0x2F,
        feature_mask: 0,
        feature: 0,
        lba_mask: 0xFF,
        lba: 0xE0,
    },
    Row {
        code: 0x47,
        feature_mask: 0,
        feature: 0,
        lba_mask: 0xFF,
        lba: 0xE0,
    },
    Row {
        code: 0x0B,
        feature_mask: 0,
        feature: 0,
        lba_mask: 0,
        lba: 0,
    },
    Row {
        code: 0xF2,
        feature_mask: 0,
        feature: 0,
        lba_mask: 0,
        lba: 0,
    },
    Row {
        code: 0xEF,
        feature_mask: 0xFF,
        feature: 0x07,
        lba_mask: 0,
        lba: 0,
    },
    Row {
        code: 0xB0,
        feature_mask: 0xFF,
        feature: 0xD5,
        lba_mask: 0xFF,
        lba: 0x30,
    },
    Row {
        code: 0xB0,
        feature_mask: 0xFF,
        feature: 0xD5,
        lba_mask: 0xFF,
        lba: 0xE0,
    },
    Row {
        code: 0xB0,
        feature_mask: 0xFF,
        feature: 0xDA,
        lba_mask: 0,
        lba: 0,
    },
];

#[tactic(auto, unfolding(crate::specs::Private::leaves))]
fn does_fit(row: Row, code: u8, feature: u16, lba: u64) -> bool
    ensures { result ≡ private.row_fits row code feature lba }
{
    code == row.code
        && feature & row.feature_mask == row.feature
        && lba & (row.lba_mask as u64) == row.lba as u64
}

#[tactic(auto, unfolding(crate::specs::Private::any_fits))]
fn any_fits(rows: &[Row], code: u8, feature: u16, lba: u64) -> bool
    ensures { result ≡ private.any_fits rows.now code feature lba }
{
    rows.iter().any(|row| does_fit(*row, code, feature, lba))
}

// Whether a command is open during a removal.
pub fn is_open(code: u8, feature: u16, lba: u64) -> bool
    ensures { result ≡ is_open code feature lba }
{
    any_fits(&OPEN, code, feature, lba)
}
