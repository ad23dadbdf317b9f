// What has been read so far of a table's text.
use crate::begun::ChainBegun;
use crate::given::{Given, Nodes};
use crate::reader::TablePlan;

// What a line may be depends on the lines read before it.
#[derive(Drop)]
pub(crate) enum Draft {
    // node lines alone
    Nodes(Nodes),
    // chain lines too: the nodes given, the plan with the chains that are complete, and the last chain, which may go on
    Chains(Given, TablePlan, ChainBegun),
}
