// Prints the name and the listing of each file that an argument names.
#![tactic(auto)]

use std::rt::Files;
use std::{env, fs, io};

fn main(rt: HostRuntime) -> io::Result<()> {
    for path in env::args(&rt)?.skip(1) {
        print_case(&rt, path.as_str())?;
    }
    Ok(())
}

// Prints the name that an argument gives, and the listing of that file. If the file cannot be opened, reports why on
// standard error.
fn print_case(rt: &(impl Files + Print + Eprint), path: &str) -> io::Result<()> {
    match fs::open(rt, path) {
        Ok(mut file) => {
            println!(rt; "{path}:")?;
            report::print_input(&mut file, &mut io::writer(rt))
        }
        Err(e) => {
            // Where standard error is closed, there is nobody to tell. The next file is listed all the same.
            let _ = eprintln!(rt; "{path}: {e}");
            Ok(())
        }
    }
}
