// Plays each trace file that an argument names in the 486 edition, and prints its name and what the program replay prints for it.
#![tactic(auto)]

use settings::Edition;
use std::io;

fn main(rt: HostRuntime) -> io::Result<()> {
    let mut out = [0u8; 130006];
    programs::show_cases(&rt, Edition::Cx486, &mut out)
}
