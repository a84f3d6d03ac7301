// The calls of a script, on what it has on its bench: what each leaves, and what it says.
#![tactic(auto)]

ghost use Rattle.std.specs.Prelude.{◌≡◌};
ghost use Rattle.front.specs.Front.{lent_after};
ghost use Rattle.kept.specs.Kept.{page_after};
ghost use Rattle.making.specs.Making.{made_of};
ghost use Rattle.paper.specs.Told.{said};
ghost use Rattle.workbench.specs.Changes.{offering};
ghost use Rattle.acts.specs.Acts as paper;

use arguments::{Command, Dock, DockCall, Line, PageCall, Poke};
use device::Stepped;
use docking::Docked;
use paper::Answer;
use query::Query;
use request::Request;
use workbench::Bench;

// An answer over a lent buffer of `room` bytes, of which it wrote the first `count`.
#[derive(Clone, Copy)]
pub struct Lent {
    pub answer: Answer,
    pub room: usize,
    pub count: usize,
}

// What the bench says to a line.
#[derive(Clone, Copy)]
pub enum Reply {
    Nothing,
    NotACall,
    NoDevice,
    Outside,
    Length(usize),
    Answer(Answer),
    Command(Lent),
    Cells,
    Read(Request),
    Next(Request),
    ReadScsi(Query),
    Dock(Docked),
}

// The bench after a line, and what it says.
#[derive(Clone, Copy)]
pub struct Acted {
    pub bench: Bench,
    pub reply: Reply,
}

fn replied(bench: Bench, reply: Reply) -> Acted
    ensures { paper.acted result ≡ paper.act bench (paper.heard reply) }
{
    Acted { bench, reply }
}

// The answer of an event, and the bench with the device after it.
fn after(bench: Bench, s: Stepped) -> Acted
    ensures { paper.acted result ≡ paper.after_event bench (said s.answer s.device) }
{
    let answer = s.answer;
    let device = s.device;
    replied(bench.with_device(device), Reply::Answer(answer))
}

// Offers the list and empties it.
fn make(bench: Bench, limit: u16) -> Acted
    ensures { paper.acted result ≡ paper.after_offer bench (made_of bench.device (offering bench limit)) }
{
    let there = bench.device;
    let s = making::make_device(there, bench.offering(limit));
    let answer = s.answer;
    replied(bench.after_making(s), Reply::Answer(answer))
}

// The front call; a page that it wrote is kept.
fn command(bench: Bench, c: Command, page: &mut [u8], lent: &mut [u8]) -> Acted
    ensures result_value { paper.acted result ≡ paper.after_command bench c page.old lent.old }
    ensures page_after { page.new ≡ paper.kept_page bench c page.old lent.old }
    ensures lent_after { lent.new ≡ lent_after bench.device c lent.old }
{
    let d = bench.device;
    let left = front::command(d, c, lent);
    let kept = kept::keep(page, bench.kept, slices::head(lent, left.count));
    let answer = left.answer;
    let device = left.device;
    let said = Lent {
        answer,
        room: left.room,
        count: left.count,
    };
    replied(
        bench.with_device(device).with_kept(kept),
        Reply::Command(said),
    )
}

// What a call on the kept page says; `length` says how long it then is.
fn page_reply(call: PageCall, kept: usize, after: usize) -> Reply
    ensures { paper.heard result ≡ paper.page_saying call kept after }
{
    match call {
        PageCall::Length(_) => Reply::Length(after),
        PageCall::Poke(p) => poke_reply(p, kept),
        PageCall::Read(request) => Reply::Read(request),
        PageCall::Next(request) => Reply::Next(request),
        PageCall::ReadScsi(query) => Reply::ReadScsi(query),
    }
}

fn poke_reply(p: Poke, kept: usize) -> Reply
    ensures { paper.heard result ≡ paper.poke_saying p kept }
{
    if kept <= p.place {
        return Reply::Outside;
    }
    Reply::Nothing
}

fn on_page(bench: Bench, c: PageCall, page: &mut [u8]) -> Acted
    ensures result_value { paper.acted result ≡ paper.after_page bench c page.old }
    ensures page_after { page.new ≡ page_after c bench.kept page.old }
{
    let before = bench.kept;
    let kept = kept::call(page, before, c);
    replied(bench.with_kept(kept), page_reply(c, before, kept))
}

// A call for a SCSI host, of the device or of the kept page; the bytes that it wrote are kept.
fn on_dock(bench: Bench, c: Dock, page: &mut [u8], lent: &mut [u8]) -> Acted
    ensures result_value { paper.acted result ≡ paper.after_dock bench c page.old lent.old }
    ensures page_after { page.new ≡ paper.dock_page bench c page.old lent.old }
    ensures lent_after { lent.new ≡ paper.dock_lent bench c page.old lent.old }
{
    let d = bench.device;
    let docked = docking::call(d, c, slices::head(page, bench.kept), lent);
    let said = docked.said;
    let written = slices::head(lent, said.count());
    let kept = kept::keep_data(page, bench.kept, said.number(), written);
    replied(bench.with_kept(kept), Reply::Dock(docked))
}

fn does_ask_device(call: DockCall) -> bool
    ensures { result ≡ paper.asks_device call }
{
    matches!(call, DockCall::Send(_))
}

fn needs_device(line: Line) -> bool
    ensures { result ≡ paper.needs_device line }
{
    match line {
        Line::Command(_) | Line::Bare(_) | Line::Grade(_) | Line::Cells => true,
        Line::Dock(c) => does_ask_device(c.call),
        Line::Passed | Line::NotACall | Line::Element(_) | Line::Make(_) | Line::Page(_) => false,
    }
}

fn lacks_device(made: bool, line: Line) -> bool
    ensures { result ≡ paper.lacks_device made line }
{
    !made && needs_device(line)
}

// Makes the call of a line, for which a device is there if it needs one.
fn obey(bench: Bench, line: Line, page: &mut [u8], lent: &mut [u8]) -> Acted
    ensures result_value { paper.acted result ≡ paper.act_of bench line page.old lent.old }
    ensures page_after { page.new ≡ paper.page_of bench line page.old lent.old }
    ensures lent_after { lent.new ≡ paper.lent_of bench line page.old lent.old }
{
    let d = bench.device;
    match line {
        Line::Passed => replied(bench, Reply::Nothing),
        Line::NotACall => replied(bench, Reply::NotACall),
        Line::Element(e) => replied(bench.offer(e), Reply::Nothing),
        Line::Make(limit) => make(bench, limit),
        Line::Command(c) => command(bench, c, page, lent),
        Line::Bare(b) => after(bench, events::bare(d, b)),
        Line::Grade(g) => after(bench, events::graded(d, g)),
        Line::Cells => replied(bench, Reply::Cells),
        Line::Page(c) => on_page(bench, c, page),
        Line::Dock(c) => on_dock(bench, c, page, lent),
    }
}

// Makes the call of a line; one that needs a device that is not there changes nothing.
pub fn call(bench: Bench, line: Line, page: &mut [u8], lent: &mut [u8]) -> Acted
    ensures result_value { paper.acted result ≡ paper.acted_on bench line page.old lent.old }
    ensures page_after { page.new ≡ paper.page_on bench line page.old lent.old }
    ensures lent_after { lent.new ≡ paper.lent_on bench line page.old lent.old }
{
    if lacks_device(bench.made, line) {
        return replied(bench, Reply::NoDevice);
    }
    obey(bench, line, page, lent)
}
