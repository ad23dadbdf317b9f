// What a plan answers on examples: limits, refusals and their order, and what is kept from solve to solve.
#![tactic(auto)]

#[cfg(test)]
mod changes;
#[cfg(test)]
mod limits;
#[cfg(test)]
mod records_in_range;
#[cfg(test)]
mod runs;
#[cfg(test)]
mod sample;
