//! Reads a rules text, an empty line and a log text from standard input, and prints the listing.
#![tactic(auto)]

use listing::listing::listing;
use std::io;
use std::io::Read;

fn main(rt: HostRuntime) -> io::Result<()> {
    let mut input = Vec::new(rt.alloc());
    rt.stdin().read_to_end(&mut input)?;
    let text = listing(rt.alloc(), &input)?;
    print!(rt; "{text}")
}
