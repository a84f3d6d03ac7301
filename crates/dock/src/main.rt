// Lists SCSI data: that of each file that an argument names, after a line with its name, or without arguments that on standard input. If
// reading fails, it says so on standard error and lists nothing.
#![tactic(auto)]

use input::Told;

const OUTPUT: &[u8] = b"list: standard output";

fn list(rt: &HostRuntime, data: &[u8]) -> Result<(), Told> {
    let mut text = [0u8; input::LISTING_ROOM];
    // There is room for every listing.
    let Ok(end) = docklist::list(data, &mut text) else {
        return Ok(());
    };
    input::hand_out(rt, OUTPUT, &text[..end])
}

fn list_input(rt: &HostRuntime) -> Result<(), Told> {
    let mut data = [0u8; input::PAGE_ROOM];
    let size = input::read_input(rt, b"list: standard input", &mut data)?;
    list(rt, &data[..size])
}

fn list_file(rt: &HostRuntime, i: usize) -> Result<(), Told> {
    input::write_name(rt, OUTPUT, i, b"\n")?;
    let mut data = [0u8; input::PAGE_ROOM];
    let size = input::read_file(rt, i, &mut data)?;
    list(rt, &data[..size])
}

// A file that cannot be listed does not keep the next from being listed: the words tell of a failure, and the exit status is 0 all the same.
fn main(rt: HostRuntime) {
    let arguments = input::arg_count(&rt);
    if arguments < 2 {
        let _ = list_input(&rt);
    }
    for i in 1..arguments {
        let _ = list_file(&rt, i);
    }
}
