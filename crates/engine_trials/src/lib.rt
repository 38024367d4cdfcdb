//! Trials of the engine: histories that are drawn by fixed seeds, in which what a version of a network shows, with
//! links down too, and what updates changed are compared with what the plain evaluator of `dn_model` says. That one has
//! tables, walks and answers of its own; only the types, and `router` and `link` of `dn_model`, which look names up,
//! serve both sides.
#![tactic(auto)]

#[cfg(test)]
mod block;
#[cfg(test)]
mod course;
#[cfg(test)]
mod draw;
#[cfg(test)]
mod found;
#[cfg(test)]
mod link_tests;
#[cfg(test)]
mod question;
#[cfg(test)]
mod ring;
#[cfg(test)]
mod same;
#[cfg(test)]
mod tests;
#[cfg(test)]
mod trial;
#[cfg(test)]
mod update;
#[cfg(test)]
mod version_tests;
