// What a buffer holds after writes, on examples.
#![tactic(auto)]

#[cfg(test)]
mod writes;
