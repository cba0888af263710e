//! Tests of printed names and ends, of the engine in memory, of boards, and of value change dumps.
#![tactic(auto)]

#[cfg(test)]
mod boards;
#[cfg(test)]
mod dumps;
#[cfg(test)]
mod engines;
#[cfg(test)]
mod texts;
