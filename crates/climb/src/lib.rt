// The climb: from 1 up, a rising rule is applied to its own result until it gives back what it was given.
#![tactic(auto)]

ghost use Rattle.std.specs.Prelude.{◌≡◌, ℕ, ◌-◌, ◌^◌, min};
ghost use Rattle.climb.specs.Climb.{Rises, LeastFixed, settled};

// A rule that gives at least 1, and never less for a larger number.
pub trait RisingRule {
    // what the rule gives for a number
    ghost gives: { Self → ℕ → ℕ };

    // What the rule gives; the largest u64 stands for anything that a u64 cannot hold.
    fn apply(&self, at: u32) -> u64
        ensures { result ≡ min (gives self.now at) (2 ^ 64 - 1) };

    ghost rises: { (rule : Self) → Rises (gives rule) };
}

// The least number of at least 1 that the rule gives back, or over (`None`) where that would pass the limit.
pub fn climb<R: RisingRule>(rule: &R, limit: u32) -> Option<u32>
    ensures value { result ≡ settled (R.gives rule.now) limit }
    ensures least { LeastFixed (R.gives rule.now) limit result }
{
    let mut at: u32 = 1;
    // A loop, since the rule alone says which number comes next: there is no range to go over.
    loop {
        let next = rule.apply(at);
        if next > u64::from(limit) {
            break None;
        }
        if next == u64::from(at) {
            break Some(at);
        }
        at = next as u32;
    }
}
