//! Trials of whole runs of the program, over files in memory: sources and sinks that fail, generated inputs, jobs that a
//! gate holds, and jobs side by side, whose reports are held against what the plain evaluator of `dn_model` says.
#![tactic(auto)]

#[cfg(test)]
mod bounded_wait;
#[cfg(test)]
mod held_gate;
#[cfg(test)]
mod history_tests;
#[cfg(test)]
mod link_full_tests;
#[cfg(test)]
mod link_tests;
#[cfg(test)]
mod link_turn_tests;
#[cfg(test)]
mod made_tests;
#[cfg(test)]
mod mark_tests;
#[cfg(test)]
mod read_gate;
#[cfg(test)]
mod ring_run;
#[cfg(test)]
mod run_tests;
#[cfg(test)]
mod same;
#[cfg(test)]
mod script_tests;
#[cfg(test)]
mod shown_gate;
#[cfg(test)]
mod slow_gate;
#[cfg(test)]
mod sure_tests;
#[cfg(test)]
mod trial;
#[cfg(test)]
mod trial_tests;
#[cfg(test)]
mod vrf_tests;
#[cfg(test)]
mod whole_run;
#[cfg(test)]
mod words_tests;
