//! Trials of the checks: what the public calls of the crates that follow addresses through a network answer for small
//! networks, whose answers are found by hand. It has nothing but tests.
#![tactic(auto)]

#[cfg(test)]
mod counted;
#[cfg(test)]
mod delta_tests;
#[cfg(test)]
mod hole_tests;
#[cfg(test)]
mod keeper_tests;
#[cfg(test)]
mod loop_tests;
#[cfg(test)]
mod network;
#[cfg(test)]
mod one_thread;
#[cfg(test)]
mod same;
#[cfg(test)]
mod scan_tests;
#[cfg(test)]
mod together_tests;
#[cfg(test)]
mod view_tests;
#[cfg(test)]
mod walk_tests;
#[cfg(test)]
mod waypoint_tests;
#[cfg(test)]
mod what_if_tests;
