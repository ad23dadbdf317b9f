// Analyses the table on standard input, or in the file that is named: writes its listing, or the line of its refusal and, to standard error, why.
#![tactic(auto)]

mod fields;
mod input;
mod sentences;
#[cfg(test)]
mod tests;

use crate::input::{Asked, Source, asked_for, read_table};
use crate::sentences::sentence_on;
use law::Refusal;
use report::{Report, report};
use std::io::Write;
use std::process::ExitCode;

// The longest listing has 64 lines of at most 30 bytes, after one of at most 18.
const ROOM: usize = 4096;

const HELP: &str = "analyse: worst-case response times of the chains of a panel

  analyse          analyses the table on standard input
  analyse FILE     analyses the table in FILE
  analyse --help   prints this

It prints the rounds of the solve and a line for each step: step, the chain's id, the
step's number, its release jitter, its response time. A table that is refused prints one
line: refused, the number of the refusal, and its line and field, or for refusal 10 the
rounds made; why is said on standard error, and the exit status is 1.
docs/TEXT.md has the format of a table and every refusal.
";

// Writes what is reported, and why it is a refusal if it is one.
fn tell(rt: &HostRuntime, text: &[u8], told: &Report, bytes: &[u8]) -> anyhow::Result<ExitCode> {
    rt.stdout().write_all(bytes)?;
    match sentence_on(text, told.verdict) {
        Some(why) => {
            eprintln!(rt; "{why}")?;
            Ok(ExitCode::FAILURE)
        }
        None => Ok(ExitCode::SUCCESS),
    }
}

fn analyse(rt: &HostRuntime, from: &Source) -> anyhow::Result<ExitCode> {
    let table = match read_table(rt, from) {
        Ok(table) => table,
        Err(why) => {
            eprintln!(rt; "the table cannot be read: {why}")?;
            return Ok(ExitCode::FAILURE);
        }
    };
    let mut buffer = [0; ROOM];
    match report(table.as_slice(), &mut buffer) {
        Ok(told) => tell(rt, table.as_slice(), &told, &buffer[0..told.len.min(ROOM)]),
        Err(why) => short(rt, why),
    }
}

// The buffer is longer than any report, so nobody sees this.
fn short(rt: &HostRuntime, why: Refusal) -> anyhow::Result<ExitCode> {
    let number = why.number();
    println!(rt; "refused,{number}")?;
    eprintln!(rt; "the report is longer than {ROOM} bytes")?;
    Ok(ExitCode::FAILURE)
}

fn main(rt: HostRuntime) -> anyhow::Result<ExitCode> {
    match asked_for(&rt)? {
        Asked::Help => {
            print!(rt; "{HELP}")?;
            Ok(ExitCode::SUCCESS)
        }
        Asked::Unclear => {
            eprint!(rt; "{HELP}")?;
            Ok(ExitCode::FAILURE)
        }
        Asked::Analysis(from) => analyse(&rt, &from),
    }
}
