// A letter for each node.
ghost use Rattle.std.specs.Prelude.{◌≡◌, ◌-◌, IfOk, if◌then◌else◌};
ghost use Rattle.records.specs.Ranges.{within};
ghost use Rattle.mixed.specs.Letters.{all_E, letter_of, with_letter, OnlyThatNode};

use records::RecordFault;

// How a node shares its time: by earliest deadlines (E) or by fixed priorities (P).
#[derive(Clone, Copy, PartialEq, Eq, Debug)]
pub enum Letter {
    E,
    P,
}

// The letters of the nodes 1 to 8, in their order.
#[derive(Clone, Copy, PartialEq, Eq, Debug)]
pub struct Letters {
    by_node: [Letter; 8],
}

// Where a node's letter stands, for a node from 1 to 8.
fn place_of(node: u32) -> Option<usize>
    ensures { result ≡ (if within 1 8 node then Some (node - 1) else None) }
{
    (1..=8).contains(&node).then(|| node as usize - 1)
}

impl Letters {
    // Every node by earliest deadlines.
    pub fn new() -> Letters
        ensures { result ≡ all_E }
    {
        Letters {
            by_node: [Letter::E; 8],
        }
    }

    // The letters with another one for a node, or a fault at place 1, the node's place in a step's record.
    pub fn with(mut self, node: u32, letter: Letter) -> Result<Letters, RecordFault>
        ensures value { result ≡ with_letter self node letter }
        ensures only { IfOk result (OnlyThatNode self node letter) }
    {
        let place = place_of(node).ok_or(RecordFault { place: 1 })?;
        self.by_node[place] = letter;
        Ok(self)
    }

    // The letter of a node from 1 to 8.
    pub fn of(&self, node: u32) -> Option<Letter>
        ensures { result ≡ letter_of self.now node }
    {
        Some(self.by_node[place_of(node)?])
    }
}
