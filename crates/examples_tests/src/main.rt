// Analyses each of the example tables and compares the report with the bytes that are expected.
#![tactic(auto)]

use report::report;
use std::fs;

const TABLES: [&str; 4] = ["panel", "full", "late", "typing-error"];

// The report on a table is what its file of expected bytes has.
fn is_as_expected(rt: &HostRuntime, name: &str) -> anyhow::Result<bool> {
    let alloc = rt.alloc();
    let table = fs::read(rt, format!(in alloc; "{name}.csv")?.as_str())?;
    let expected = fs::read(rt, format!(in alloc; "{name}.out")?.as_str())?;
    let mut buffer = [0; 4096];
    Ok(report(table.as_slice(), &mut buffer).is_ok_and(|told| &buffer[..told.len.min(4096)]
        == expected.as_slice()))
}

fn main(rt: HostRuntime) -> anyhow::Result<()> {
    for name in TABLES {
        let answer = if is_as_expected(&rt, name)? {
            "as expected"
        } else {
            "not as expected"
        };
        println!(rt; "{name}: {answer}")?;
    }
    Ok(())
}
