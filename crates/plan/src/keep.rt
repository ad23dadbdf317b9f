// What a solve leaves in a plan's memory.
ghost use Rattle.std.specs.Prelude.{◌≡◌, ◌≤◌, length, Some};
ghost use Rattle.plan.specs.Contents.{with_responses, forgotten};

use crate::table::Table;
use arrayvec::ArrayVec;

impl Table {
    // The responses of an accepted solve.
    pub(crate) fn keep(&mut self, responses: ArrayVec<u32, 64>, rounds: u32)
        ensures { self.new ≡ with_responses self.old responses.items (Some rounds) }
    {
        self.responses = responses;
        self.standing = Some(rounds);
    }

    // A zero for each row: no solve stands, and the next one starts anew.
    pub(crate) fn forget(&mut self)
        requires { length self.old.rows.items ≤ length self.old.responses.items }
        ensures { self.new ≡ forgotten self.old }
    {
        self.responses.truncate(self.rows.len());
        self.responses.as_mut_slice().fill(0);
        self.standing = None;
    }
}
