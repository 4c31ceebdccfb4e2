// The examiner: reads a saved program file on standard input, and prints on standard output whether a tag can take it: `yes`; or what is wrong first: `refused` and
// the number 12 or 13; `names`, `values` or `store`, whichever is unsound; `line` and its number.
#![tactic(auto)]

use buffers::front;
use console::{KEPT_FILE, read_file};
use editor_examine::Flaw;
use file_examine::{Fault, examine};
use std::io;

// Prints what is wrong with a program.
fn print_flaw(rt: &impl Print, flaw: Flaw) -> io::Result<()> {
    match flaw {
        Flaw::UnsoundNames => println!(rt; "names"),
        Flaw::UnsoundValues => println!(rt; "values"),
        Flaw::UnsoundStore => println!(rt; "store"),
        Flaw::BadLine(line) => println!(rt; "line\t{line}"),
    }
}

// Prints what examining a file answered.
fn print_examined(rt: &impl Print, examined: Result<(), Fault>) -> io::Result<()> {
    match examined {
        Ok(()) => println!(rt; "yes"),
        Err(Fault::NotRead(refusal)) => println!(rt; "refused\t{}", refusal.number()),
        Err(Fault::Flawed(flaw)) => print_flaw(rt, flaw),
    }
}

// Reads the file on standard input and examines it. A write that fails is left to the command that runs the program.
fn main(rt: HostRuntime) {
    let mut file = [0; KEPT_FILE];
    let size = read_file(&mut file);
    let _ = print_examined(&rt, examine(front(&file, size)));
}
