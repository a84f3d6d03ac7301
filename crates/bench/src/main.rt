// Runs scripts of calls on one device, and hands out what each line says. A script is a file that an argument names, after a line with its
// name; without arguments it is standard input.
#![tactic(auto)]

ghost use Rattle.io.specs.Counts.{IsPrefixLen};
ghost use Rattle.std.specs.Prelude.{◌≡◌, ◌<◌, length, take, IfOk, OnErr};
ghost use Rattle.std.specs.Io.KnownBytes.{Consumes, IsAtEnd, Keeps};

use input::Told;
use runs::Run;
use std::io::Read;

// Room for every reply.
const TEXT_ROOM: usize = 140000;

fn text_room() -> [u8; TEXT_ROOM]
    ensures { 140000 ≡ length result }
{
    [0u8; TEXT_ROOM]
}

// Room for a page, and for a piece of input.
const ROOM: usize = 65536;

fn room() -> [u8; ROOM]
    ensures { 65536 ≡ length result }
{
    [0u8; ROOM]
}

fn hand_out(rt: &HostRuntime, text: &[u8]) -> Result<(), Told> {
    input::hand_out(rt, b"bench: standard output", text)
}

// Runs the lines that end in a piece of input, over the kept page, the buffer of the front call and room for what a line says. Each line ends
// where `go_on` says, so no `for` counts the places.
fn run_piece(
    rt: &HostRuntime,
    begun: Run,
    piece: &[u8],
    page: &mut [u8],
    lent: &mut [u8],
    out: &mut [u8],
) -> Result<Run, Told> {
    let mut run = begun;
    let mut at: usize = 0;
    while at < piece.len() {
        let went = runs::go_on(run, piece, at, page, lent, out);
        hand_out(rt, slices::head(out, went.said))?;
        at = went.at;
        run = went.run;
    }
    Ok(run)
}

// Reads a piece of input. If it cannot be read, that is said on standard error.
fn read_piece<R: Read>(
    rt: &HostRuntime,
    script: &mut R,
    name: &[u8],
    piece: &mut [u8],
) -> Result<usize, Told>
    ensures prefix_len { IfOk result (λ n. IsPrefixLen n piece.new) }
    ensures bytes { IfOk result (λ n. Consumes (R.remaining script.old) (R.remaining script.new) (take n piece.new)) }
    ensures end { IfOk result (λ n. n ≡ 0 → 0 < length piece.old → IsAtEnd (R.remaining script.new)) }
    ensures err { OnErr result (Keeps (R.remaining script.old) (R.remaining script.new)) }
{
    script
        .read(piece)
        .map_err(|error| input::tell(rt, name, error))
}

// A script from an empty bench; its end ends its last line. Nothing says that input ends, so its pieces are counted up to a number that
// no run reaches.
fn run_script<R: Read>(rt: &HostRuntime, script: &mut R, name: &[u8]) -> Result<(), Told> {
    let mut page = room();
    let mut lent = room();
    let mut out = text_room();
    let mut run = runs::new_run();
    for _ in 0..u64::MAX {
        let mut piece = room();
        let n = read_piece(rt, script, name, &mut piece)?;
        if n == 0 {
            break;
        }
        run = run_piece(rt, run, &piece[..n], &mut page, &mut lent, &mut out)?;
    }
    let said = runs::end_run(run, &mut page, &mut lent, &mut out);
    hand_out(rt, slices::head(&out, said))
}

fn run_file(rt: &HostRuntime, i: usize) -> Result<(), Told> {
    let mut path = input::name_room();
    let length = input::arg(rt, i, &mut path);
    let name = &path[..length];
    hand_out(rt, b"script ")?;
    hand_out(rt, name)?;
    hand_out(rt, b"\n")?;
    let mut script = input::open(rt, name).map_err(|error| input::tell(rt, name, error))?;
    run_script(rt, &mut script, name)
}

// A script that cannot be run to its end does not keep the next from being run: the words tell of a failure, and the exit status is 0 all the
// same.
fn main(rt: HostRuntime) {
    let arguments = input::arg_count(&rt);
    if arguments < 2 {
        let _ = run_script(&rt, &mut rt.stdin(), b"bench: standard input");
    }
    for i in 1..arguments {
        let _ = run_file(&rt, i);
    }
}
