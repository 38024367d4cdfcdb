//! Trials of the plain evaluator of `dn_model` and of `nexthop_objects`: small histories, whose answers were worked out
//! by hand.
#![tactic(auto)]

#[cfg(test)]
mod down_tests;
#[cfg(test)]
mod network;
#[cfg(test)]
mod nexthop_tests;
#[cfg(test)]
mod object_tests;
#[cfg(test)]
mod plain_delta_tests;
#[cfg(test)]
mod plain_query_tests;
#[cfg(test)]
mod plain_tests;
#[cfg(test)]
mod replace_tests;
#[cfg(test)]
mod same;
#[cfg(test)]
mod topologies;
#[cfg(test)]
mod vrf_tests;
