// Reports on texts.
#![tactic(auto)]

#[cfg(test)]
mod buffers;
#[cfg(test)]
mod limits;
#[cfg(test)]
mod readers;
#[cfg(test)]
mod refused;
#[cfg(test)]
mod sample;
