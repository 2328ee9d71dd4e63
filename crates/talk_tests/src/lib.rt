//! Tests of talks over lines in memory that tell what happens: in which order bytes are heard and said, and where a call on the
//! line fails. What the program tells of talks over files is shown by the rows of rows/ at the repository's top.
#![tactic(auto)]

#[cfg(test)]
mod squares;
#[cfg(test)]
mod talks;
