//! What scripts are played over.
use crate::ended::Ended;
use crate::given::Given;
use script_lines::{Answer, Settings};
use std::alloc::Global;

/// A line that is played: its verb, the words behind that, and the texts that have names.
#[derive(Clone, Copy)]
pub struct Asked<'a> {
    pub settings: &'a Settings,
    pub verb: &'a str,
    pub words: &'a str,
}

/// What the lines of a script are played over.
pub trait Scene {
    /// The texts that have names.
    fn settings(&self) -> &Settings;

    /// Does what a line asks for, and answers to it; whether there is such a verb.
    fn play(&mut self, verb: &str, rest: &str, answer: &mut Answer) -> bool;

    /// Ends a list: only the first `known` texts keep their names, and the next list begins anew.
    fn end_list(&mut self, known: usize);
}

/// What runs command lines.
pub trait Runs {
    /// Runs a command line, and says what it came to.
    fn run(&mut self, alloc: Global, given: &Given<'_>) -> Ended;

    /// What the last command line left of standard input: bytes of the part that was read last, and parts behind it.
    fn unread(&self) -> (usize, usize);

    /// What the last command line gave to the network, in lines.
    fn given_to_network(&self) -> &[u8];

    /// The files that the last command line made: the path and the length of each, and its bytes behind them.
    fn made_files(&self) -> &[u8];
}
