// Document 01: the program reads standard input, 'uses N = 128 and prints.' P3: 'the program reads at most 300 bytes'.
#![tactic(auto)]

use std::io;

fn main(rt: HostRuntime) -> io::Result<()> {
    let mut book = [0u8; 300];
    let size = reading::read_full(&mut rt.stdin(), &mut book)?;
    let mut out = [0u8; lines::PAGE];
    let end = lines::program_lines(&book[..size], &mut out);
    rt.write_all(&out[..end])
}
