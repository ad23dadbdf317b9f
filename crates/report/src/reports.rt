// The report on a text.
ghost use Rattle.std.specs.Prelude.{◌≡◌};
ghost use Rattle.std.specs.Result.{result_map_both};
ghost use Rattle.writing.specs.Writing.{after_write};
ghost use Rattle.reading.specs.Reading.{table_of};
ghost use Rattle.table.specs.Drafts.{panel_in, Unsolved};
ghost use Rattle.report.specs.Reports.{write_answer, solved_bytes, solved_verdict, panel_outcome, report_of, verdict_on, bytes_on, report_answer, EndToEnd};

use crate::refusals::{write_fault, write_nothing_carries};
use crate::verdicts::{Report, Verdict};
use law::Refusal;
use table::{Reader, TablePlan};

// The listing of a plan that has not been solved before, or refusal 10.
fn report_plan(mut plan: TablePlan, buffer: &mut [u8]) -> Result<Report, Refusal>
    requires { Unsolved plan }
    ensures value { result ≡ result_map_both (report_of (solved_verdict (panel_outcome (panel_in plan)))) (λ why. why) (write_answer buffer.old (solved_bytes (panel_in plan) (panel_outcome (panel_in plan)))) }
    ensures after { buffer.new ≡ after_write buffer.old 0 (solved_bytes (panel_in plan) (panel_outcome (panel_in plan))) }
{
    match plan.solve() {
        Ok(_) => Ok(Report {
            verdict: Verdict::Listed,
            len: plan.listing(buffer)?,
        }),
        Err(Refusal::NothingCarries { rounds }) => Ok(Report {
            verdict: Verdict::NothingCarries { rounds },
            len: write_nothing_carries(rounds, buffer)?,
        }),
        // a solve is refused with 10 alone
        Err(_) => unreachable(),
    }
}

// Reads a text, solves the plan that it gives, and writes what comes of it to the front of the buffer: the listing of the least response times that
// carry the chains, or the line of the refusal; or 20, and then nothing is written. The rest of the buffer stays as it was.
#[tactic(auto, using(crate::proofs::Meaning::fault_meaning, crate::proofs::Meaning::plan_meaning))]
pub fn report(text: &[u8], buffer: &mut [u8]) -> Result<Report, Refusal>
    ensures value { result ≡ report_answer buffer.old (table_of text.now) }
    ensures after { buffer.new ≡ after_write buffer.old 0 (bytes_on (table_of text.now)) }
    ensures meaning { EndToEnd text.now (verdict_on (table_of text.now)) (bytes_on (table_of text.now)) }
{
    let mut reader = Reader::new();
    match reader.read(text) {
        Ok(()) => report_plan(reader.plan, buffer),
        Err(fault) => Ok(Report {
            verdict: Verdict::Faulty(fault),
            len: write_fault(&fault, buffer)?,
        }),
    }
}
