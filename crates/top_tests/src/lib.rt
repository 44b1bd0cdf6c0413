//! Tests of the whole program: each command, over streams, files, disks and links in memory.
//!
//! They call `top` as the programs do; `runs` has what the tests of all commands share. Lines,
//! statuses and complaints that are compared were worked out by hand.
#![tactic(auto)]

#[cfg(test)]
mod runs;
