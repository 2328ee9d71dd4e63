//! Calls of which the contract leaves one answer, each by two calls on equal values: a proof knows of a call only its
//! contract, so a contract that allows two answers is refused here, and with it each body that gives another one.
//! Nothing calls these functions.
#![tactic(auto)]

mod celestia;
mod cells;
mod claims;
mod codes;
mod collisions;
mod commitments;
mod digests;
mod draws;
mod followers;
mod frames;
mod growing;
mod halves;
mod headers;
mod inputs;
mod lights;
mod lists;
mod namespaces;
mod nets;
mod openings;
mod payloads;
mod rows;
mod samples;
mod sessions;
mod shares;
mod squares;
mod streams;
