// Prints the covers of document 01, section "Edges", in the tree with 3 levels: the window, its pieces and their over-cover, or the cause of the refusal.
#![tactic(auto)]

use std::io;

fn main(rt: HostRuntime) -> io::Result<()> {
    for (l, r) in [
        (60, 70),
        (0, 129),
        (0, 256),
        (10, 300),
        (100, 700),
        (500, 520),
        (0, 1024),
        (0, 1025),
        (5, 5),
    ] {
        print_cover(&rt, l, r)?;
    }
    Ok(())
}

fn print_cover(rt: &impl Print, l: u64, r: u64) -> io::Result<()> {
    print!(rt; "cover of [{l}, {r})")?;
    match cover::cover(3, l, r) {
        Ok(pieces) => print_pieces(rt, pieces)?,
        Err(refusal) => print!(rt; ": refused {}", refusal.number())?,
    }
    println!(rt)
}

fn print_pieces(rt: &impl Print, pieces: cover::Pieces) -> io::Result<()> {
    print!(rt; ": node {}", pieces.first)?;
    if pieces.second != 0 {
        print!(rt; " and node {}", pieces.second)?;
    }
    print!(rt; ", over-cover {}", pieces.over)
}
