// Lists each page of data/ that an argument names, after a line with its name. What the program must write is in `stdout`.
#![tactic(auto)]

use input::Told;

const OUTPUT: &[u8] = b"pages: standard output";

// By itself: where an array follows a `?` in its function, the compiler clears it twice.
fn list(rt: &HostRuntime, page: &[u8]) -> Result<(), Told> {
    let mut text = [0u8; input::LISTING_ROOM];
    // There is room for every listing.
    let Ok(end) = listing::list(page, &mut text) else {
        return Ok(());
    };
    input::hand_out(rt, OUTPUT, &text[..end])
}

fn list_file(rt: &HostRuntime, i: usize) -> Result<(), Told> {
    input::write_name(rt, OUTPUT, i, b"\n")?;
    let mut page = [0u8; input::PAGE_ROOM];
    let size = input::read_file(rt, i, &mut page)?;
    list(rt, &page[..size])
}

// A file that cannot be listed does not keep the next from being listed: the words tell of a failure, and the exit status is 0 all the same.
fn main(rt: HostRuntime) {
    for i in 1..input::arg_count(&rt) {
        let _ = list_file(&rt, i);
    }
}
