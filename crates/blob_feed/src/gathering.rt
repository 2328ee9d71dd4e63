//! The shares that an answer shows, and the entry that they are.

ghost use Rattle.std.specs.Prelude.{◌≡◌, ◌++◌, IfOk, OnOk};
ghost use Rattle.share_split.specs.Walks.{blobs_joined};
ghost use Rattle.blob_feed.specs.Feeds.{shares_shown, shares_found, read_of, brought_by, IsCounted};

use crate::{Entry, Taken};
use axis_roots::{Found, NsAnswer, NsEntry};
use namespace_id::{NoMemory, Share};
use share_split::{JoinError, join_blobs};
use std::alloc::Global;

/// Appends the shares of what is found in a row.
fn put_found(found: &Found, out: &mut Vec<Share>) -> Result<(), NoMemory>
    ensures { OnOk result (out.new.items ≡ out.old.items ++ shares_found found.now) }
{
    let Found::Range { shares, .. } = found else {
        return Ok(());
    };
    if out.extend_from_slice(&shares.list).is_err() {
        return Err(NoMemory);
    }
    Ok(())
}

/// The shares that an answer shows, in their order.
#[tactic(auto, using(crate::proofs::ShownLemmas::shown_by_entry))]
fn shares_shown(alloc: Global, entries: &[NsEntry]) -> Result<Vec<Share>, NoMemory>
    ensures { IfOk result (λ shares. shares.items ≡ shares_shown entries.now) }
{
    let mut shares = Vec::new(alloc);
    for entry in entries {
        put_found(&entry.found, &mut shares)?;
    }
    Ok(shares)
}

/// The entry that the shares of an answer are.
pub(crate) fn joined(alloc: Global, answer: &NsAnswer) -> Result<Entry, NoMemory>
    ensures { IfOk result (λ entry. read_of entry ≡ blobs_joined (shares_shown answer.now)) }
{
    let shares = shares_shown(alloc, &answer.entries)?;
    match join_blobs(alloc, &shares) {
        Ok(blobs) => Ok(Entry::Blobs(blobs)),
        Err(JoinError::NoMemory) => Err(NoMemory),
        Err(why) => Ok(Entry::Malformed(why)),
    }
}

/// What an entry brought.
pub(crate) fn taken(entry: &Entry) -> Taken
    requires few { IsCounted (read_of entry.now) }
    ensures { result ≡ brought_by (read_of entry.now) }
{
    match entry {
        Entry::Blobs(blobs) => Taken::Blobs(blobs.len() as u32),
        Entry::Malformed(why) => Taken::Malformed(*why),
    }
}
