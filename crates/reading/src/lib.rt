// What the text of a table gives: definitions alone, in specs/.

#![tactic(auto)]
