//! Tests of what no proof can show of files, sinks, frames and streams of them: the bytes of the format, reads and writes that
//! fail, and calls that succeed where memory is ample. What the program tells of them over files is shown by the rows of rows/
//! at the repository's top.
#![tactic(auto)]

#[cfg(test)]
mod files;
#[cfg(test)]
mod runs;
#[cfg(test)]
mod sinks;
#[cfg(test)]
mod spellings;
#[cfg(test)]
mod streams;
#[cfg(test)]
mod unspellable;
