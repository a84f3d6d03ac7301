// Lists the status page on standard input. If reading fails, it says so on standard error and lists nothing.
#![tactic(auto)]

use input::Told;

fn list(rt: &HostRuntime) -> Result<(), Told> {
    let mut page = [0u8; input::PAGE_ROOM];
    let size = input::read_input(rt, b"list: standard input", &mut page)?;
    let mut text = [0u8; input::LISTING_ROOM];
    // There is room for every listing.
    let Ok(end) = listing::list(&page[..size], &mut text) else {
        return Ok(());
    };
    input::hand_out(rt, b"list: standard output", &text[..end])
}

// The words tell of a failure; the exit status is 0 all the same.
fn main(rt: HostRuntime) {
    let _ = list(&rt);
}
