//! Tests of what no proof can show of sessions, talks of a repair, light nodes and networks: the bytes of the format, and calls that
//! succeed where memory is ample. What the program tells of them over files is shown by the rows of rows/ at the repository's top.
#![tactic(auto)]

#[cfg(test)]
mod gatherers;
#[cfg(test)]
mod light_nodes;
#[cfg(test)]
mod networks;
#[cfg(test)]
mod sessions;
#[cfg(test)]
mod squares;
