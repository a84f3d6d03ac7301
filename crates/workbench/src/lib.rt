// What a script has on its bench, and how a call changes it.
#![tactic(auto)]

ghost use Rattle.std.specs.Prelude.{◌≡◌};
ghost use Rattle.workbench.specs.Changes as changes;
ghost use Rattle.workbench.specs.Empty as spec;

use cells::{Cells, Mark, Note, Position};
use device::{Device, Stepped};
use offer::{Element, Offer};
use paper::{Answer, Lba};
use table::Table;

// The offered list, the device and whether one was made, and how many bytes the kept page has, which is lent to each call.
#[derive(Clone, Copy)]
pub struct Bench {
    pub offered: Offer,
    pub made: bool,
    pub device: Device,
    pub kept: usize,
}

fn no_offer() -> Offer
    ensures { result ≡ spec.no_offer }
{
    let blank = offer::blank();
    Offer {
        elements: [blank; 128],
        count: 0,
        limit: 0,
    }
}

fn no_table() -> Table
    ensures { result ≡ spec.no_table }
{
    let blank = table::blank_part();
    Table {
        parts: [blank; 128],
        count: 0,
        limit: 0,
    }
}

fn no_cells() -> Cells
    ensures { result ≡ spec.no_cells }
{
    Cells {
        native: Lba(0),
        accessible: Lba(0),
        healths: [0; 128],
        failed: Mark::Clear,
        note: Note::Empty,
    }
}

// What stands where the first device is made: which mark, note and step these are is chosen here, and is no default of their types.
fn no_device() -> Device
    ensures { result ≡ spec.no_device }
{
    Device {
        table: no_table(),
        cells: no_cells(),
        position: Position::Work1,
    }
}

// The records with one more; those past the 128th have no place.
fn with_element(elements: [Element; 128], place: usize, e: Element) -> [Element; 128]
    ensures { result ≡ changes.with_element elements place e }
{
    if 128 <= place {
        return elements;
    }
    let mut longer = elements;
    longer[place] = e;
    longer
}

// The list with a record more. Of its first 129 the last is only counted: 129 are refused, whatever they hold.
fn lengthened(list: Offer, e: Element) -> Offer
    ensures { result ≡ changes.lengthened list e }
{
    let elements = list.elements;
    Offer {
        elements: with_element(elements, list.count, e),
        count: table::bounded(list.count) + 1,
        limit: list.limit,
    }
}

// Whether a device is there after one was to be made.
fn is_made(made: bool, answer: Answer) -> bool
    ensures { result ≡ changes.is_made made answer }
{
    made || u8::from(answer) == 0
}

impl Bench {
    pub fn empty() -> Bench
        ensures { result ≡ spec.empty }
    {
        Bench {
            offered: no_offer(),
            made: false,
            device: no_device(),
            kept: 0,
        }
    }

    pub fn offer(self, e: Element) -> Bench
        ensures { result ≡ changes.with_record self e }
    {
        let list = self.offered;
        let longer = lengthened(list, e);
        let mut next = self;
        next.offered = longer;
        next
    }

    // The list, as it is offered with a limit.
    pub fn offering(self, limit: u16) -> Offer
        ensures { result ≡ changes.offering self limit }
    {
        let mut list = self.offered;
        list.limit = limit;
        list
    }

    // The list is emptied once it was offered; the device is a new one, or the one that was there.
    pub fn after_making(self, s: Stepped) -> Bench
        ensures { result ≡ changes.after_making self s }
    {
        let answer = s.answer;
        let device = s.device;
        Bench {
            offered: no_offer(),
            made: is_made(self.made, answer),
            device,
            kept: self.kept,
        }
    }

    pub fn with_device(self, device: Device) -> Bench
        ensures { result ≡ changes.with_device self device }
    {
        let mut next = self;
        next.device = device;
        next
    }

    pub fn with_kept(self, kept: usize) -> Bench
        ensures { result ≡ changes.with_kept self kept }
    {
        let mut next = self;
        next.kept = kept;
        next
    }
}
