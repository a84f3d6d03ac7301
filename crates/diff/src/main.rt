// Compares the status pages in the files that the arguments name two by two, the older first; of several pairs, each after a line with its
// names. If a file cannot be read, it says so on standard error and compares nothing.
#![tactic(auto)]

use input::{PAGE_ROOM, Told};

// Room for every text.
const TEXT_ROOM: usize = 160000;

const OUTPUT: &[u8] = b"diff: standard output";

// By itself: where an array follows a `?` in its function, the compiler clears it twice.
fn compare<'a>(rt: &HostRuntime, older: &'a [u8], newer: &'a [u8]) -> Result<(), Told> {
    let mut text = [0u8; TEXT_ROOM];
    // There is room for every text.
    let Ok(end) = comparison::write(older, newer, &mut text) else {
        return Ok(());
    };
    input::hand_out(rt, OUTPUT, &text[..end])
}

// Both files are read before either is judged, so that each that cannot be read is named.
fn compare_files(rt: &HostRuntime, i: usize, j: usize) -> Result<(), Told> {
    let mut older = [0u8; PAGE_ROOM];
    let mut newer = [0u8; PAGE_ROOM];
    let first = input::read_file(rt, i, &mut older);
    let second = input::read_file(rt, j, &mut newer);
    compare(rt, &older[..first?], &newer[..second?])
}

fn compare_named(rt: &HostRuntime, i: usize, j: usize) -> Result<(), Told> {
    input::write_name(rt, OUTPUT, i, b" ")?;
    input::write_name(rt, OUTPUT, j, b"\n")?;
    compare_files(rt, i, j)
}

// A pair that cannot be compared does not keep the next from being compared: the words tell of a failure, and the exit status is 0 all the same.
fn main(rt: HostRuntime) {
    let arguments = input::arg_count(&rt);
    if arguments == 3 {
        let _ = compare_files(&rt, 1, 2);
        return;
    }
    for newer in (2..arguments).step_by(2) {
        let _ = compare_named(&rt, newer - 1, newer);
    }
}
