// The listing: the rounds of the solve that stands, and a line for each row, as bytes.
ghost use Rattle.std.specs.Prelude.{◌≡◌, ◌<◌, length};
ghost use Rattle.plan.specs.Contents.{chains_of, contents};
ghost use Rattle.plan.specs.Listing.{row_fields, listing_bytes, listing_answer, listing_after};

use crate::plan::Plan;
use law::Refusal;
use writing::{Line, Text};

// The listing of a plan.
#[derive(Drop)]
struct Listing<'a, R> {
    plan: &'a Plan<R>,
    rounds: u32,
}

impl<R> Text for Listing<'_, R> {
    ghost bytes = { λ listing. listing_bytes (contents listing.plan.now.table) listing.rounds };

    fn len(&self) -> usize {
        let heading = Line {
            word: b"rounds",
            fields: &[self.rounds],
        };
        let mut len = heading.len();
        // by its number: a row's place in its chain comes of it, and its jitter
        for row in 0..self.plan.table.rows.len() {
            let line = Line {
                word: b"step",
                fields: &self.plan.row_line(row),
            };
            len = len.saturating_add(line.len());
        }
        len
    }

    #[tactic(auto, using(crate::proofs::Listed::room))]
    fn put(&self, buffer: &mut [u8], at: usize) -> Option<usize> {
        if !self.fits(buffer, at) {
            return None;
        }
        let heading = Line {
            word: b"rounds",
            fields: &[self.rounds],
        };
        let mut end = heading.put(buffer, at)?;
        for row in 0..self.plan.table.rows.len() {
            let line = Line {
                word: b"step",
                fields: &self.plan.row_line(row),
            };
            end = line.put(buffer, end)?;
        }
        Some(end)
    }
}

impl<R> Plan<R> {
    // The numbers of a row's line.
    fn row_line(&self, row: usize) -> [u32; 4]
        requires { row < length self.now.table.rows.items }
        ensures { result ≡ row_fields (chains_of self.now.table) self.now.table.responses.items row }
    {
        let place = self.place(row);
        let step = place.step as u32 + 1;
        let kept = self.kept();
        [place.chain.id, step, kept.jitter(row), kept.responses[row]]
    }

    // Writes the listing to the front of the buffer and answers how many bytes it has, or 9 or 20. The rest of the buffer stays as it was.
    pub fn listing(&self, buffer: &mut [u8]) -> Result<usize, Refusal>
        ensures value { result ≡ listing_answer (contents self.now.table) buffer.old }
        ensures after { buffer.new ≡ listing_after (contents self.now.table) buffer.old }
    {
        let rounds = self.table.standing.ok_or(Refusal::NotSolved)?;
        let listing = Listing { plan: self, rounds };
        listing.put(buffer, 0).ok_or(Refusal::BufferShort)
    }
}
