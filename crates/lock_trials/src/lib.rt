//! Trials of the version lock and of the pins that wait for nobody, over histories whose entries were worked out by
//! hand.
#![tactic(auto)]

#[cfg(test)]
mod lock_tests;
#[cfg(test)]
mod pins_tests;
#[cfg(test)]
mod plain_book;
#[cfg(test)]
mod same;
