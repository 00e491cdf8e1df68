// Reads a schedule from standard input, at most 65,536 bytes, makes its calls, and writes the planners' page and each run's page to standard output, and nothing else. If
// the one cannot be read or the other cannot be written, it says so on standard error and ends with status 1.
#![tactic(auto)]

use paging::ROOM;
use std::process::ExitCode;

mod lines;
mod paging;

fn main(rt: HostRuntime) -> ExitCode {
    reading::run_over_schedule::<ROOM, _>(
        &rt,
        "rangepages",
        "standard output could not be written, and the pages are not whole",
        |file, text| paging::put_pages(file, text),
    )
}
