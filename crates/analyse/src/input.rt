// Where the table comes from.
use std::fs::File;
use std::io::Read;
use std::{env, io};

// One byte more than the longest text that is accepted: enough to see that a text is too long.
const MOST_READ: u64 = 32_769;

#[derive(Drop)]
pub(crate) enum Source {
    Standard,
    Named(String),
}

#[derive(Drop)]
pub(crate) enum Asked {
    Analysis(Source),
    Help,
    // more than one argument, or an unknown option
    Unclear,
}

// What one argument asks for.
fn asked_by(word: String) -> Asked {
    match word.as_str() {
        "--help" | "-h" => Asked::Help,
        option if option.starts_with("-") => Asked::Unclear,
        _ => Asked::Analysis(Source::Named(word)),
    }
}

// What the arguments ask for.
pub(crate) fn asked_for(rt: &HostRuntime) -> io::Result<Asked> {
    let mut words = env::args(rt)?.skip(1);
    Ok(match (words.next(), words.next()) {
        (None, _) => Asked::Analysis(Source::Standard),
        (Some(word), None) => asked_by(word),
        (Some(_), Some(_)) => Asked::Unclear,
    })
}

// The table's bytes, at most `MOST_READ` of them.
pub(crate) fn read_table(rt: &HostRuntime, from: &Source) -> io::Result<Vec<u8>> {
    let mut table = Vec::new(rt.alloc());
    match from {
        Source::Named(path) => {
            let file = File::open(rt, path.as_str())?;
            file.take(MOST_READ).read_to_end(&mut table)?;
        }
        Source::Standard => {
            rt.stdin().take(MOST_READ).read_to_end(&mut table)?;
        }
    }
    Ok(table)
}
