// Plays each trace file that an argument names in the MII edition, and prints its name and what the program replay_mii prints for it.
#![tactic(auto)]

use settings::Edition;
use std::io;

fn main(rt: HostRuntime) -> io::Result<()> {
    let mut out = [0u8; 130006];
    programs::show_cases(&rt, Edition::Mii, &mut out)
}
