//! Tests of the program as one call, in a crate of their own: a crate that holds tests is proved twice.
#![tactic(auto)]

#[cfg(test)]
mod forged;
#[cfg(test)]
mod outside;
#[cfg(test)]
mod running;
#[cfg(test)]
mod runs;
