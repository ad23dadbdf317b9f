// Chosen texts: those that the documents print, with what they print of them, and texts at the limits.
use crate::comparison::Comparison;
use std::alloc::{AllocError, Global};
use std::fmt::Write;
use std::io;

// The examples of single lines, each a text and what is printed of it.
const LINES: [(&str, &str); 14] = [
    ("", "rounds,1\n"),
    ("node,9,E\n", "refused,1,1,2\n"),
    ("chain,1,10,1000001,0\n", "refused,1,1,4\n"),
    ("chain,1,10,10,0\n", "refused,2,1,0\n"),
    ("node,1,E\nnode,2,P", "refused,12,2,0\n"),
    ("nodes,1,E\n", "refused,13,1,1\n"),
    ("node,1,E\n\n", "refused,13,2,1\n"),
    ("chain,1,10,10\n", "refused,14,1,0\n"),
    ("node,,E\n", "refused,15,1,2\n"),
    ("chain,1,010,10,0\n", "refused,16,1,3\n"),
    ("node,1,e\n", "refused,17,1,3\n"),
    ("step,1,1,1,0,0,1\n", "refused,18,1,0\n"),
    ("node,1,E\nnode,1,P\n", "refused,19,2,2\n"),
    ("node,1,E\r\n", "refused,17,1,3\n"),
];

// One node and one chain, for the examples of lines behind them.
const ONE: &str = "node,1,E\nchain,1,10,10,0\n";

const LATER_LINES: [(&str, &str); 4] = [
    ("step,1,0,5,0,0,1\n", "refused,1,3,3\n"),
    ("node,2,E\n", "refused,18,3,0\n"),
    ("step,2,1,5,0,0,1\n", "refused,19,3,2\n"),
    (
        "step,1,1,5,0,0,1\nchain,1,20,20,0\nstep,1,1,5,0,0,1\n",
        "refused,5,4,0\n",
    ),
];

const STEP: &str = "step,1,1,5,0,0,1\n";

// So many chains of so many steps each, on one node.
fn many(alloc: Global, chains: u64, steps: u64) -> Result<String, AllocError> {
    let mut text = String::from_str(alloc, "node,1,P\n")?;
    for id in 1..=chains {
        writeln!(text, "chain,{id},1000,1000,0")?;
        put_steps(&mut text, steps)?;
    }
    Ok(text)
}

fn put_steps(text: &mut String, steps: u64) -> Result<(), AllocError> {
    for _ in 0..steps {
        text.push_str(STEP)?;
    }
    Ok(())
}

const SEVEN: &str =
    "node,1,E\nnode,2,P\nchain,7,20,20,0\nstep,1,3,8,0,0,1\nstep,2,2,6,1,0,2\nchain,9,10,6,0\n";

const FOUR: &str = "step,1,4,6,0,0,1\n";

const TWELVE: &str = "chain,12,5,5,0\nstep,2,1,5,0,0,3\n";

// Tables with what is printed of them: one that just fits, one whose fifth job is the worst, and two chains on a node
// whose busy period is as long as may be, 1,000,000 ticks; and a tick longer.
const TABLES: [(&str, &str); 4] = [
    (
        "node,1,E\nchain,1,10,10,0\nstep,1,10,10,0,0,1\n",
        "rounds,2\nstep,1,1,0,10\n",
    ),
    (
        "node,1,P\nchain,1,70,118,0\nstep,1,26,9,0,0,2\nchain,2,100,118,0\nstep,1,62,9,0,0,1\n",
        "rounds,2\nstep,1,1,0,26\nstep,2,1,0,118\n",
    ),
    (
        "node,1,P\nchain,1,500001,1000000,0\nstep,1,5,1,0,0,2\nchain,2,333334,1000000,0\nstep,1,333330,1,0,0,1\n",
        "rounds,2\nstep,1,1,0,5\nstep,2,1,0,333336\n",
    ),
    (
        "node,1,P\nchain,1,500001,1000000,0\nstep,1,4,1,0,0,2\nchain,2,333334,1000000,0\nstep,1,333331,1,0,0,1\n",
        "refused,10,1\n",
    ),
];

// A step that uses half of a period of 1,000,000, and others beside it, at the limits of a busy period, of a blocking
// and of a jitter.
const HALF: &str = "step,1,500000,1,0,0,2\n";

const BESIDE_HALF: [&str; 7] = [
    "step,1,500000,1,0,0,1\n",
    "step,1,500001,1,0,0,1\n",
    "step,1,1,1,0,499999,1\n",
    "step,1,1,1,0,500000,1\n",
    "step,1,1,1,0,1000000,1\n",
    "step,1,1,1,1000000,0,3\n",
    "step,1,1,1,999999,0,3\n",
];

// Tables of one chain at the limits.
const LIMITS: [&str; 4] = [
    "node,1,E\nchain,1,1,1,0\nstep,1,1,1,0,0,0\n",
    "node,1,E\nchain,1,1,1000000,1000000\nstep,1,1,1,0,0,0\n",
    "node,1,E\nchain,1,1000000,1000000,0\nstep,1,1,1,0,999999,255\n",
    "node,1,E\nchain,1,3,1000000,900000\nstep,1,1,1,99999,0,0\n",
];

impl Comparison {
    fn all_print(&mut self, cases: &[(&str, &str)]) -> io::Result<()> {
        for (input, wanted) in cases {
            self.prints(input.as_bytes(), wanted)?;
        }
        Ok(())
    }

    fn later_lines(&mut self) -> io::Result<()> {
        for (line, wanted) in LATER_LINES.iter() {
            let input = format!(in self.rt.alloc(); "{ONE}{line}")?;
            self.prints(input.as_bytes(), wanted)?;
        }
        Ok(())
    }

    // So many chains of so many steps each are refused.
    fn refuses_many(&mut self, chains: u64, steps: u64, wanted: &str) -> io::Result<()> {
        let input = many(self.rt.alloc(), chains, steps)?;
        self.prints(input.as_bytes(), wanted)
    }

    fn chains(&mut self) -> io::Result<()> {
        self.refuses_many(17, 1, "refused,3,34,0\n")?;
        self.refuses_many(5, 13, "refused,4,58,0\n")?;
        self.refuses_many(1, 17, "refused,2,2,0\n")?;
        let over = b"node,1,E\nchain,1,10,10,1\nstep,1,10,10,0,0,1\n";
        self.prints(over, "refused,10,1\n")?;
        let long = vec![in self.rt.alloc(); b'\n'; 32_769]?;
        self.prints(long.as_slice(), "refused,11,0,0\n")
    }

    // The worked table: chain 7, chain 9 with this line for its step, and chain 12 or none.
    fn worked(&mut self, nine: &str, twelve: &str, wanted: &str) -> io::Result<()> {
        let input = format!(in self.rt.alloc(); "{SEVEN}{nine}{twelve}")?;
        self.prints(input.as_bytes(), wanted)
    }

    // The tables of docs/MODEL.md.
    fn worked_tables(&mut self) -> io::Result<()> {
        let whole = "rounds,3\nstep,7,1,0,7\nstep,7,2,8,11\nstep,9,1,0,5\nstep,12,1,0,1\n";
        self.worked(FOUR, TWELVE, whole)?;
        let without = "rounds,3\nstep,7,1,0,7\nstep,7,2,8,10\nstep,9,1,0,5\n";
        self.worked(FOUR, "", without)?;
        let five = "rounds,3\nstep,7,1,0,8\nstep,7,2,9,12\nstep,9,1,0,6\nstep,12,1,0,1\n";
        self.worked("step,1,5,6,0,0,1\n", TWELVE, five)?;
        self.worked("step,1,6,6,0,0,1\n", TWELVE, "refused,10,1\n")
    }

    // Two chains of period and deadline 1,000,000 on a node of fixed priorities.
    fn beside_half(&mut self) -> io::Result<()> {
        for step in BESIDE_HALF.iter() {
            let input = format!(in self.rt.alloc();
                "node,1,P\nchain,1,1000000,1000000,0\n{HALF}chain,2,1000000,1000000,0\n{step}"
            )?;
            self.compare_text(input.as_bytes())?;
        }
        Ok(())
    }

    fn limits(&mut self) -> io::Result<()> {
        for input in LIMITS.iter() {
            self.compare_text(input.as_bytes())?;
        }
        Ok(())
    }

    pub fn compare_chosen(&mut self) -> io::Result<()> {
        self.all_print(&LINES)?;
        self.later_lines()?;
        self.chains()?;
        self.worked_tables()?;
        self.all_print(&TABLES)?;
        self.beside_half()?;
        self.limits()
    }
}
