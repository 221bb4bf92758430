//! Runs the worked cases of the command `x7`, and prints where one doesn't come as it is written.
#![tactic(auto)]

use std::alloc::Global;
use std::{fs, io};
use x7_in_memory::{MemoryFlash, MemoryInputs, MemorySink};
use x7_runner::{Command, report_cases};
use x7_tool::run;

/// The files of cases, each with the end `.txt`.
const SUBJECTS: [&str; 19] = [
    "list", "asm", "play", "frames", "startup", "mcs", "plan", "partial", "image", "boot",
    "attempts", "chains", "update", "parts", "debug", "svf", "faults", "damaged", "limits",
];

/// The command `x7`.
struct X7;

impl Command for X7 {
    fn run(
        &self,
        alloc: Global,
        words: &Vec<String>,
        inputs: &mut MemoryInputs,
        flash: &mut MemoryFlash,
        out: &mut MemorySink,
        err: &mut MemorySink,
    ) -> u8 {
        run(alloc, words, inputs, flash, out, err).number()
    }
}

/// Runs one file of cases.
fn run_file(rt: &HostRuntime, subject: &str, part: &[u8]) -> io::Result<()> {
    let path = format!(in rt.alloc(); "{subject}.txt")?;
    let text = fs::read_to_string(rt, path.as_str())?;
    let mut report = String::new(rt.alloc());
    let text = text.as_str();
    match report_cases(&X7, rt.alloc(), subject, part, text, &mut report) {
        Ok(()) => print!(rt; "{report}"),
        Err(_) => println!(rt; "{subject}: no memory"),
    }
}

fn main(rt: HostRuntime) -> io::Result<()> {
    let part = fs::read(&rt, "tiny.part")?;
    for subject in SUBJECTS {
        run_file(&rt, subject, &part)?;
    }
    Ok(())
}
