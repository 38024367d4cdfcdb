//! Trials of what is read and printed: texts of topologies and scripts, printed values and reports, byte for byte. The
//! crate has nothing but tests, over the public calls of the crates tried.
#![tactic(auto)]

#[cfg(test)]
mod link_tests;
#[cfg(test)]
mod long_line_tests;
#[cfg(test)]
mod mark_tests;
#[cfg(test)]
mod print_tests;
#[cfg(test)]
mod printed;
#[cfg(test)]
mod query_tests;
#[cfg(test)]
mod refused;
#[cfg(test)]
mod report_tests;
#[cfg(test)]
mod same;
#[cfg(test)]
mod script_tests;
#[cfg(test)]
mod topology_tests;
#[cfg(test)]
mod triangle;
#[cfg(test)]
mod two_routers;
#[cfg(test)]
mod vrf_tests;
#[cfg(test)]
mod writing_tests;
