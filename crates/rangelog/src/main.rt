// Reads a schedule from standard input, at most 65,536 bytes, and writes its log to standard output, and nothing else. If the one cannot be read or the other
// cannot be written, it says so on standard error and ends with status 1.
#![tactic(auto)]

use schedule::ROOM;
use std::process::ExitCode;

fn main(rt: HostRuntime) -> ExitCode {
    reading::run_over_schedule::<ROOM, _>(
        &rt,
        "rangelog",
        "standard output could not be written, and the log is not whole",
        |file, text| schedule::log(file, text),
    )
}
