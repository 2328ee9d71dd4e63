//! Tests of what no proof can show of fields of protobuf and of lists of transactions: bytes that other programs write, and calls
//! that succeed with ample memory.
#![tactic(auto)]

#[cfg(test)]
mod backs;
#[cfg(test)]
mod lists;
#[cfg(test)]
mod plans;
#[cfg(test)]
mod protobuf;
