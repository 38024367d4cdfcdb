//! Trials of the crates below the engine: lists in shared pages, atoms, labels, rules and routing tables. Each file
//! tries one of them through its public calls.
#![tactic(auto)]

#[cfg(test)]
mod alone_tests;
#[cfg(test)]
mod atom_tests;
#[cfg(test)]
mod bound_tests;
#[cfg(test)]
mod code_tests;
#[cfg(test)]
mod crossing;
#[cfg(test)]
mod draw;
#[cfg(test)]
mod label_tests;
#[cfg(test)]
mod metric_tests;
#[cfg(test)]
mod owner_tests;
#[cfg(test)]
mod pages_tests;
#[cfg(test)]
mod plain_list;
#[cfg(test)]
mod reading_tests;
#[cfg(test)]
mod removal_tests;
#[cfg(test)]
mod rows_tests;
#[cfg(test)]
mod same;
#[cfg(test)]
mod table_tests;
#[cfg(test)]
mod tables_tests;
#[cfg(test)]
mod trial_graph;
#[cfg(test)]
mod trial_rows;
