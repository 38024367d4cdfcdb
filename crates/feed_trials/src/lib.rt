//! Trials of how a router's feed is read: sources and sinks in memory, frames, messages, updates and made feeds. There
//! is nothing but tests here, over the public calls of the crates tried.
#![tactic(auto)]

#[cfg(test)]
mod feed_tests;
#[cfg(test)]
mod frame_tests;
#[cfg(test)]
mod frames;
#[cfg(test)]
mod io_tests;
#[cfg(test)]
mod made_tests;
#[cfg(test)]
mod message_tests;
#[cfg(test)]
mod port_tests;
#[cfg(test)]
mod routes;
#[cfg(test)]
mod same;
#[cfg(test)]
mod test_network;
#[cfg(test)]
mod vrf_tests;
