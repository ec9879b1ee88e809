// Plays one short trace on memories of several sizes: the edges of what a step takes, and those just beyond them.
// The trace: a reset, a write of the byte ABh at 0, a read of the byte at 0, and a read of the byte at FFFFFh; then a boundary with a port and no
// output, a halt, the same boundary, and a read of the byte at 0.
#![tactic(auto)]

use machine::Machine;
use settings::Edition;
use std::io;

fn show(rt: &impl Print, main_size: usize, management_size: usize) -> io::Result<()> {
    let mut main = [0u8; 1048577];
    let mut management = [0u8; 65537];
    let m = main_size.min(1048577);
    let g = management_size.min(65537);
    let mut out = [0u8; 130006];
    let size = player::replay(
        b"\x02\0\x01\0\x0b\0\x04\0\x01\0\0\0\0\xab\0\0\0\x07\0\x03\0\x01\0\0\0\0\x07\0\x03\0\x01\xff\xff\x0f\0\x13\0\x08\0\0\0\0\0\0\0\x01\0\0\0\0\0\0\0\0\0\0\x02\0\x09\0\x13\0\x08\0\0\0\0\0\0\0\x01\0\0\0\0\0\0\0\0\0\0\x07\0\x03\0\x01\0\0\0\0",
        Machine::initial(Edition::Cx486),
        &mut main[0..m],
        &mut management[0..g],
        &mut out,
    );
    rt.write_all(&out[..size])
}

fn main(rt: HostRuntime) -> io::Result<()> {
    for (name, main, management) in [
        ("main 0", 0, 65536),
        ("main 1", 1, 65536),
        ("main 1048576", 1048576, 65536),
        ("main 1048577", 1048577, 65536),
        ("management 0", 65536, 0),
        ("management 65535", 65536, 65535),
        ("management 65537", 65536, 65537),
    ] {
        println!(rt; "== {name}")?;
        show(&rt, main, management)?;
    }
    Ok(())
}
