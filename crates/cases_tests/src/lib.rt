// The worked cases, run through the plan's calls.
#![tactic(auto)]

#[cfg(test)]
mod runs;
#[cfg(test)]
mod sample;
