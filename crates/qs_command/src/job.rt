//! What the words tell the program to do.

/// What is to be done.
#[derive(Clone, Copy, Debug, PartialEq, Eq)]
pub enum Command {
    /// Read a deck, run its grammars one after another, and write what each leaves.
    Run,
    /// Read a deck and write it.
    Check,
    /// Read a deck and write its graph.
    Graph,
    /// Make a deck, run its grammar, and write a line that tells what is left. Nothing is read.
    Made,
    /// Do what `Run` does, and behind each graph that is left tell in comments where its arcs come from.
    Explain,
    /// Read a deck, and write for each grammar the levels that bound its rounds on every graph.
    Levels,
    /// Read grammars and lines of words, run the grammars on each line, and write the readings of what they leave.
    Phrase,
}

/// A job: what is to be done, the most firings that a grammar may need, from 1 to 1,000,000, how many workers do it,
/// from 1 to 32, the size of a deck that is made, from 0 to 13, and how many readings of a line of words are written at
/// most, from 1 to 1,000.
#[derive(Clone, Copy, Debug, PartialEq, Eq)]
pub struct Job {
    pub command: Command,
    pub limit: u32,
    pub workers: u32,
    pub size: u32,
    pub readings: u32,
}
