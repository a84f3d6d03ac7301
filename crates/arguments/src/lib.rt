// The bench language: each call from the words of its line.
#![tactic(auto)]

mod calls;
mod dock_calls;

pub use calls::{
    command_call, element_call, grade_call, length_call, make_call, next_call, poke_call, read_call,
};
pub use dock_calls::{scsi_call, scsiread_call, toata_call, toscsi_call};
use offer::Element;
use paper::{ElementId, PageCount, Registers, Security};
use query::Query;
use request::Request;

// The front call, with the length of the buffer that is lent.
#[derive(Clone, Copy)]
pub struct Command {
    pub security: Security,
    pub registers: Registers,
    pub length: usize,
}

#[derive(Clone, Copy)]
pub struct Grade {
    pub id: ElementId,
    pub health: u8,
}

#[derive(Clone, Copy)]
pub struct Poke {
    pub place: usize,
    pub byte: u8,
}

// An event of the device that carries no value.
#[derive(Clone, Copy)]
pub enum Bare {
    Step,
    Error,
    Cut,
    Comreset,
    Hardreset,
    Softreset,
}

// A request of a SCSI host to the device, with its allocation length.
#[derive(Clone, Copy)]
pub struct Send {
    pub query: Query,
    pub allocation: u32,
}

// SCSI data that answers a request, to be turned into so many pages.
#[derive(Clone, Copy)]
pub struct ToAta {
    pub query: Query,
    pub pages: PageCount,
}

// A call that writes into a lent buffer, of the device or of the kept page.
#[derive(Clone, Copy)]
pub enum DockCall {
    Send(Send),
    ToScsi(Request),
    ToAta(ToAta),
}

// It with the length of the buffer that is lent.
#[derive(Clone, Copy)]
pub struct Dock {
    pub call: DockCall,
    pub length: usize,
}

// A call on the kept page.
#[derive(Clone, Copy)]
pub enum PageCall {
    Length(usize),
    Poke(Poke),
    Read(Request),
    Next(Request),
    ReadScsi(Query),
}

// What a line says.
#[derive(Clone, Copy)]
pub enum Line {
    Passed,
    NotACall,
    Element(Element),
    Make(u16),
    Command(Command),
    Bare(Bare),
    Grade(Grade),
    Cells,
    Page(PageCall),
    Dock(Dock),
}
