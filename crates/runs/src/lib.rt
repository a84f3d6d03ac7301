// Runs a script: its lines, put together from pieces of input, are obeyed one after the other. What a line says stands in a lent buffer then.
#![tactic(auto)]

ghost use Rattle.std.specs.Prelude.{◌≡◌, drop};
ghost use Rattle.acts.specs.Acts.{page_on, lent_on};
ghost use Rattle.pieces.specs.Pieces.{taken_from};
ghost use Rattle.script.specs.Names.{meaning_of};
ghost use Rattle.runs.specs.Runs as paper;

use pieces::{Gathered, Taken};
use workbench::Bench;

// A script as far as it was run: the line as far as it was read, and the bench.
#[derive(Clone, Copy)]
pub struct Run {
    pub line: Gathered,
    pub bench: Bench,
}

// A run after the next line of a piece, or the piece's end: where the piece goes on, and how long the text is that the line says.
#[derive(Clone, Copy)]
pub struct Went {
    pub run: Run,
    pub at: usize,
    pub said: usize,
}

// The bench after a line, and how long the text is that it says.
#[derive(Clone, Copy)]
struct Obeyed {
    bench: Bench,
    said: usize,
}

pub fn new_run() -> Run
    ensures { result ≡ paper.new_run }
{
    Run {
        line: Gathered::nothing(),
        bench: Bench::empty(),
    }
}

// Makes the call of a line, and stores what it says. The three buffers are lent one by one, since each has a clause of its own.
fn obey(bench: Bench, line: Gathered, page: &mut [u8], lent: &mut [u8], out: &mut [u8]) -> Obeyed
    ensures value { result ≡ paper.obeyed bench line page.old lent.old out.old }
    ensures page_after { page.new ≡ page_on bench (meaning_of line) page.old lent.old }
    ensures lent_after { lent.new ≡ lent_on bench (meaning_of line) page.old lent.old }
    ensures out_after { out.new ≡ paper.said_in bench line page.old lent.old out.old }
{
    let acted = acts::call(bench, script::meaning_of(line), page, lent);
    let reply = acted.reply;
    let next = acted.bench;
    let said = replies::put(out, reply, next.device, slices::head(page, next.kept), lent);
    Obeyed { bench: next, said }
}

// Obeys a line that has ended; one that goes on in the next piece is kept.
fn go_from(run: Run, taken: Taken, page: &mut [u8], lent: &mut [u8], out: &mut [u8]) -> Went
    ensures value { result ≡ paper.went_on run taken page.old lent.old out.old }
    ensures page_after { page.new ≡ paper.page_gone run taken page.old lent.old }
    ensures lent_after { lent.new ≡ paper.lent_gone run taken page.old lent.old }
    ensures out_after { out.new ≡ paper.out_gone run taken page.old lent.old out.old }
{
    let line = taken.line;
    let bench = run.bench;
    if !taken.whole {
        return Went {
            run: Run { line, bench },
            at: taken.at,
            said: 0,
        };
    }
    let obeyed = obey(bench, line, page, lent, out);
    let next = obeyed.bench;
    Went {
        run: Run {
            line: Gathered::nothing(),
            bench: next,
        },
        at: taken.at,
        said: obeyed.said,
    }
}

// Goes on with a piece of input, from a place to the end of the next line or of the piece.
pub fn go_on(
    run: Run,
    piece: &[u8],
    from: usize,
    page: &mut [u8],
    lent: &mut [u8],
    out: &mut [u8],
) -> Went
    ensures value { result ≡ paper.went_on run (taken_from run.line (drop from piece.now) from) page.old lent.old out.old }
    ensures page_after { page.new ≡ paper.page_gone run (taken_from run.line (drop from piece.now) from) page.old lent.old }
    ensures lent_after { lent.new ≡ paper.lent_gone run (taken_from run.line (drop from piece.now) from) page.old lent.old }
    ensures out_after { out.new ≡ paper.out_gone run (taken_from run.line (drop from piece.now) from) page.old lent.old out.old }
{
    let line = run.line;
    go_from(run, line.take(piece, from), page, lent, out)
}

// Obeys the last line, which the end of input ends, and answers how long the text is that it says.
pub fn end_run(run: Run, page: &mut [u8], lent: &mut [u8], out: &mut [u8]) -> usize
    ensures value { result ≡ (paper.obeyed run.bench run.line page.old lent.old out.old).said }
    ensures page_after { page.new ≡ page_on run.bench (meaning_of run.line) page.old lent.old }
    ensures lent_after { lent.new ≡ lent_on run.bench (meaning_of run.line) page.old lent.old }
    ensures out_after { out.new ≡ paper.said_in run.bench run.line page.old lent.old out.old }
{
    let last = run.line;
    let bench = run.bench;
    let obeyed = obey(bench, last, page, lent, out);
    obeyed.said
}
