// The reader of tables.
use edf::EarliestDeadline;
use fixed::FixedPriority;
use mixed::Mixed;
use plan::Plan;

// A plan whose nodes go by earliest deadline (E) or by fixed priority (P).
pub type TablePlan = Plan<Mixed<EarliestDeadline, FixedPriority>>;

// Reads the texts of tables into a plan of its own.
#[derive(Drop)]
pub struct Reader {
    pub plan: TablePlan,
}
