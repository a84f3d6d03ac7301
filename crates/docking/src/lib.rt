// The bench's calls for a SCSI host, over a lent buffer that is filled with A5h before.
#![tactic(auto)]

ghost use Rattle.std.specs.Prelude.{◌≡◌, [], length};
ghost use Rattle.convert.specs.Convert.{heard};
ghost use Rattle.docking.specs.Dock as paper;

use arguments::{Dock, DockCall};
use convert::Refusal;
use device::Device;
use paper::Written;

// What a call says, by its kind.
#[derive(Clone, Copy)]
pub enum Said {
    Sent(Written),
    ToScsi(Result<usize, Refusal>),
    ToAta(Result<usize, Refusal>),
}

// It, and how many bytes were lent.
#[derive(Clone, Copy)]
pub struct Docked {
    pub said: Said,
    pub room: usize,
}

// ---- What was said

// No conversion of the refusal itself: what is converted has a number too.
fn number_of(c: Result<usize, Refusal>) -> u8
    ensures { result ≡ (heard c []).number }
{
    match c {
        Ok(_) => 0,
        Err(Refusal::SmallBuffer) => 7,
        Err(Refusal::Offence(_)) => 9,
    }
}

fn count_of(c: Result<usize, Refusal>) -> usize
    ensures { result ≡ paper.count_in (heard c []).state }
{
    c.unwrap_or(0)
}

impl Said {
    // The number in document 01's table.
    pub fn number(self) -> u8
        ensures { result ≡ paper.number_said self }
    {
        match self {
            Said::Sent(w) => u8::from(w.answer),
            Said::ToScsi(c) => number_of(c),
            Said::ToAta(c) => number_of(c),
        }
    }

    // How many bytes were written.
    pub fn count(self) -> usize
        ensures { result ≡ paper.count_said self }
    {
        match self {
            Said::Sent(w) => w.count,
            Said::ToScsi(c) => count_of(c),
            Said::ToAta(c) => count_of(c),
        }
    }
}

// ---- The calls

fn answer(d: Device, call: DockCall, source: &[u8], lent: &mut [u8]) -> Said
    ensures { (paper.kind_said result ≡ paper.kind_of call) × (paper.heard_over result lent.new ≡ paper.told_over d call source.now lent.old) }
{
    match call {
        DockCall::Send(s) => {
            let query = s.query;
            Said::Sent(Written::of(sender::send(d, query, s.allocation, lent)))
        }
        DockCall::ToScsi(q) => Said::ToScsi(convert::to_scsi(source, q, lent)),
        DockCall::ToAta(t) => {
            let query = t.query;
            let pages = t.pages;
            Said::ToAta(convert::to_ata(source, query, pages, lent))
        }
    }
}

// Over a buffer that is lent whole.
fn answer_over(d: Device, call: DockCall, source: &[u8], lent: &mut [u8]) -> Said
    ensures { (paper.kind_said result ≡ paper.kind_of call) × (paper.heard_over result lent.new ≡ paper.told_over d call source.now (paper.filled (length lent.old))) }
{
    front::fill(lent);
    answer(d, call, source, lent)
}

// Over as many bytes as the line says, and as there are; `source` is the kept page.
pub fn call(d: Device, c: Dock, source: &[u8], lent: &mut [u8]) -> Docked
    ensures { (paper.heard result ≡ paper.answered_by d c source.now lent.old) × (lent.new ≡ paper.lent_by d c source.now lent.old) }
{
    let room = slices::smaller(c.length, lent.len());
    let call = c.call;
    let said = answer_over(d, call, source, &mut lent[0..room]);
    Docked { said, room }
}
