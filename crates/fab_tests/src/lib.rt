//! Tests of the calls of all libraries, in a crate of their own: a crate that holds tests is proved twice.
#![tactic(auto)]

#[cfg(test)]
mod balance;
#[cfg(test)]
mod certify;
#[cfg(test)]
mod check;
#[cfg(test)]
mod depgraph;
#[cfg(test)]
mod dfsssp;
#[cfg(test)]
mod drain;
#[cfg(test)]
mod dump;
#[cfg(test)]
mod escape;
#[cfg(test)]
mod export;
#[cfg(test)]
mod fabrics;
#[cfg(test)]
mod hops;
#[cfg(test)]
mod lash;
#[cfg(test)]
mod mcast;
#[cfg(test)]
mod model;
#[cfg(test)]
mod netdiscover;
#[cfg(test)]
mod nue;
#[cfg(test)]
mod plans;
#[cfg(test)]
mod repair;
#[cfg(test)]
mod replies;
#[cfg(test)]
mod report;
#[cfg(test)]
mod rings;
#[cfg(test)]
mod sssp;
#[cfg(test)]
mod sweep;
#[cfg(test)]
mod tables;
#[cfg(test)]
mod transit;
#[cfg(test)]
mod updn;
