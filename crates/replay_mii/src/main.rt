// Plays the trace on standard input in the MII edition, and prints a line for each record and then why it stopped.
#![tactic(auto)]

use settings::Edition;
use std::io;

fn main(rt: HostRuntime) -> io::Result<()> {
    let mut out = [0u8; 130006];
    programs::show(&rt, Edition::Mii, &mut rt.reader(), &mut out)?;
    Ok(())
}
