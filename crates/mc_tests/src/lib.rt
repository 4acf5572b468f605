//! Tests of what no case of a file can try: values that no text gives, files of the process, and what is out of memory.
//!
//! Stands on `mc_app` and the crates that are tried; called by no crate. What texts can say is tried by the programs
//! `mc_cases_texts` and its like.
//!
//! - `answers`: what is printed and answered where memory is wanting.
//! - `facts`: facts about nodes: nodes in order, copies, terms.
//! - `heaps`, `lists`, `stacks`: blocks of heaps, lists past what they hold inline, and stacks.
//! - `outside`: files of the process, and files and output in memory that never fail.
//! - `tasks`: what is left to do of small programs.
#![tactic(auto)]

#[cfg(test)]
mod answers;
#[cfg(test)]
mod facts;
#[cfg(test)]
mod heaps;
#[cfg(test)]
mod lists;
#[cfg(test)]
mod outside;
#[cfg(test)]
mod stacks;
#[cfg(test)]
mod tasks;
