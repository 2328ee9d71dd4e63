//! Namespace answers: what a node that holds a square sends to one that asks for a namespace.

ghost use Rattle.axis_roots.specs.Answers.{IsFound, IsEntry, AreEntries};

use namespace_id::{Digest, Share, digest_law, digests_law, shares_law};
use nmt_proofs::Nodes;
use std::marker::Model;

/// Neighboring shares of a row.
///
/// It is a type of its own so that clauses compare lists; it is made from a `Vec` and gives it back
/// without taking memory.
#[derive(Debug, Drop)]
pub struct ShareList {
    pub list: Vec<Share>,
}

impl Model for ShareList {
    ghost use Rattle.std.specs.Prelude.{List};
    ghost use Rattle.namespace_id.specs.declared.shares.Share.{Share};

    ghost Value = { List Share };

    ghost view = { λ s. s.list.items };
}

/// What is found of a namespace in a row: a range proof with the shares, or an absence proof.
/// Places are columns. Whether it opens, and is complete, is for the one who asked.
///
/// Celestia specifications, "Data Structures", namespace proofs; docs/RULES.md, "Namespace
/// answers".
#[derive(Debug, Drop)]
pub enum Found {
    /// The shares of the namespace, from column `start` on, and the nodes that open them.
    Range {
        start: u16,
        shares: ShareList,
        nodes: Nodes,
    },
    /// The digest of the leaf at column `pos`, which is the first above the namespace, and the
    /// nodes that open it.
    Absence {
        pos: u16,
        leaf: Digest,
        nodes: Nodes,
    },
}

/// What is found in one row.
#[derive(Debug, Drop)]
pub struct NsEntry {
    pub row: u16,
    pub found: Found,
}

/// A namespace answer: for each row that may hold the namespace, from the first down, what is found
/// in it. Any entries may stand in it: whether it is complete is for the one who asked.
///
/// docs/RULES.md, "Namespace answers".
#[derive(Debug, Drop)]
pub struct NsAnswer {
    pub entries: Vec<NsEntry>,
}

impl Model for NsAnswer {
    ghost use Rattle.std.specs.Prelude.{List};
    ghost use Rattle.axis_roots.specs.declared.answers.NsEntry.{NsEntry};

    ghost Value = { List NsEntry };

    ghost view = { λ a. a.entries.items };
}

/// What is found in a row has places of two bytes, shares, digests, and up to `2 * MOST_DEPTH` nodes.
fn found_law(found: &Found)
    ensures { IsFound found.now }
{
    match found {
        Found::Range {
            start,
            shares,
            nodes,
        } => {
            // Reading a place tells that it has two bytes.
            let _start = *start;
            shares_law(&shares.list);
            digests_law(nodes.nodes());
        }
        Found::Absence { pos, leaf, nodes } => {
            let _pos = *pos;
            digest_law(leaf);
            digests_law(nodes.nodes());
        }
    }
}

/// So has an entry, and its row has two bytes.
fn entry_law(entry: &NsEntry)
    ensures { IsEntry entry.now }
{
    let _row = entry.row;
    found_law(&entry.found);
}

/// An answer has numbers of two bytes, shares, digests, and up to `2 * MOST_DEPTH` nodes an entry. It changes
/// nothing.
pub fn answer_law(answer: &NsAnswer)
    ensures { AreEntries answer.now }
{
    for entry in &answer.entries {
        entry_law(entry);
    }
}
