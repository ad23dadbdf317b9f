// Nodes that are given one after another.
ghost use Rattle.std.specs.Prelude.{◌≡◌, ◌-◌, ◌≤◌, true, slice_set};
ghost use Rattle.std.specs.Result.{result_map_both};
ghost use Rattle.reading.specs.Reading.{no_node, is_given, give};
ghost use Rattle.table.specs.Drafts.{nodes_in};

use crate::given::{Given, Nodes, WRONG_NODE};
use lines::{LineFault, NodeLine};
use mixed::Letters;

impl Given {
    // The node has been given.
    pub(crate) fn has(&self, node: u32) -> bool
        requires { (1 ≤ node) × (node ≤ 8) }
        ensures { result ≡ is_given self.now.by_node node }
    {
        self.by_node[node as usize - 1]
    }

    // The node given too.
    pub(crate) fn with(mut self, node: u32) -> Given
        requires { (1 ≤ node) × (node ≤ 8) }
        ensures { result.by_node ≡ slice_set self.by_node (node - 1) true }
    {
        self.by_node[node as usize - 1] = true;
        self
    }
}

impl Nodes {
    // No node is given.
    pub(crate) fn new() -> Nodes
        ensures { nodes_in result ≡ no_node }
    {
        Nodes {
            letters: Letters::new(),
            given: Given {
                by_node: [false; 8],
            },
        }
    }

    // One node more with its letter, or 1 or 19.
    pub(crate) fn with(self, line: NodeLine) -> Result<Nodes, LineFault>
        ensures { result_map_both nodes_in (λ fault. fault) result ≡ give (nodes_in self) line }
    {
        let letters = self.letters.with(line.node, line.letter)?;
        if self.given.has(line.node) {
            return Err(WRONG_NODE);
        }
        Ok(Nodes {
            letters,
            given: self.given.with(line.node),
        })
    }
}
