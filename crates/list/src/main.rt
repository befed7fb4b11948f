// The program: prints the listing of the file that it reads from standard input. It takes up to 65,536 bytes.
#![tactic(auto)]

use std::io;

fn main(rt: HostRuntime) -> io::Result<()> {
    report::print_input(&mut rt.stdin(), &mut rt.stdout())
}
