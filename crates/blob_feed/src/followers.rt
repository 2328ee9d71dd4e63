//! Followers of namespaces.

ghost use Rattle.std.specs.Prelude.{◌≡◌, ◌↔◌, true, false, ◌+◌, ◌-◌, ◌<◌, ◌≤◌, ◌^◌, ◌++◌, ◌∷◌, [], List, Some, None, IsOk, IsErrOf, IfOk, OnOk, OnErr, option_copied};
ghost use Rattle.std.specs.Option.{option_map};
ghost use Rattle.namespace_id.specs.Answers.{HasCapacity};
ghost use Rattle.namespace_id.specs.Cells.{is_width};
ghost use Rattle.share_split.specs.Walks.{blobs_joined};
ghost use Rattle.blob_feed.specs.declared.entries.FollowError.{FollowError as Refusal};
ghost use Rattle.blob_feed.specs.Filters.{IsFilter, wanted_by};
ghost use Rattle.blob_feed.specs.Feeds.{Item, Height, headed, answered, with_answer, FeedsAt, read_of, brought_by, shares_shown, IsCounted};
ghost use Rattle.blob_feed.specs.Followers.{FollowerParts, FollowerStands, AreFed, height_count, kept_at, IsNew, IsEntered, IsLastEntry, IsAnswerRefusedFor, HadMemory};
ghost use Rattle.blob_feed.specs.declared.entries.FollowError.TheVariants.{NotBlob, Unwanted, NoMemory as Full};
ghost use Rattle.namespace_id.specs.declared.namespaces.NsError.{NsError as NameRefusal};
ghost use Rattle.namespace_id.specs.Names.{namespace_refusal};
ghost use Rattle.blob_feed.specs.declared.followers.Last.{Last as LastParts};

use crate::feeds::Feed;
use crate::gathering::{joined, taken};
use crate::{Entry, Filter, FollowError, Taken};
use axis_roots::{NsAnswer, answer_law};
use data_header::Header;
use namespace_id::{Namespace, NoMemory, namespace_law};
use square_layout::name_laws;
use square_serve::{answer_laws, check_namespace};
use std::alloc::Global;
use std::marker::Model;

/// The last height: its header, and its entries by namespace.
#[derive(Drop)]
struct Last {
    header: Header,
    feed: Feed,
}

/// Follows the namespaces that its filter wants, from header to header. Contracts see for which
/// list of headers and answers it stands.
///
/// It keeps its filter, the last header alone, and of each height the entries by namespace. It may
/// be dropped at any time.
///
/// docs/RULES.md, "Following namespaces".
pub struct Follower<F: Filter> {
    alloc: Global,
    filter: F,
    // the entries of each height but the last, from height 0 on
    past: Vec<Feed>,
    last: Option<Last>,
}

impl<F: Filter> Model for Follower<F> {
    ghost use Rattle.blob_feed.specs.Followers.{FollowerParts, IsFollower};

    ghost Value = { FollowerParts F };

    ghost view = { λ f. record { filter = f.filter; past = f.past.items; last = f.last } };

    ghost invariant = { λ f. IsFollower F.can_ask F.answers (record {
      filter = f.filter;
      past = f.past.items;
      last = f.last;
    }) };
}

impl<F: Filter> Drop for Follower<F> {
    fn drop(self) {
        let Follower {
            alloc: _,
            filter: _,
            past: _,
            last: _,
        } = self;
    }
}

/// Appends the entries of a height for which there is capacity.
fn put_feed(past: &mut Vec<Feed>, feed: Feed)
    requires capacity { HasCapacity past.old 1 }
    ensures { past.new.items ≡ past.old.items ++ feed ∷ [] }
{
    past.push(feed).unwrap();
}

/// A header's k is a width.
fn width_law(header: &Header)
    ensures { is_width header.now.k ≡ true }
{
    // Reading it tells so.
    let _k = header.k;
}

/// The checks of an answer at the last height, in their order.
fn judge<F: Filter>(
    filter: &F,
    last: &Last,
    namespace: &Namespace,
    answer: &NsAnswer,
) -> Result<(), FollowError>
    requires filter { IsFilter F.can_ask F.answers filter.now }
    ensures width { is_width last.now.header.k ≡ true }
    ensures accepts { IsOk result ↔
        IsNew (F.answers filter.now namespace.now) last.now namespace.now answer.now }
    ensures refused { (why : Refusal) → IsErrOf result why ↔
        IsAnswerRefusedFor (F.answers filter.now namespace.now) last.now namespace.now answer.now why }
{
    namespace_law(namespace);
    width_law(&last.header);
    if let Err(why) = Namespace::blob(&namespace.0) {
        return Err(FollowError::NotBlob(why));
    }
    if !filter.wants(namespace) {
        return Err(FollowError::Unwanted);
    }
    if let Err(why) = check_namespace(&last.header, namespace, answer) {
        return Err(FollowError::Refused(why));
    }
    if last.feed.has(namespace) {
        return Err(FollowError::Twice);
    }
    Ok(())
}

/// Enters what the shares of a complete answer are read as.
fn enter(
    alloc: Global,
    feed: &mut Feed,
    namespace: &Namespace,
    answer: &NsAnswer,
) -> Result<Taken, NoMemory>
    requires few { IsCounted (blobs_joined (shares_shown answer.now)) }
    ensures taken { IfOk result (λ taken. taken ≡ brought_by (blobs_joined (shares_shown answer.now))) }
    ensures entered { OnOk result (IsEntered feed.old feed.new namespace.now answer.now) }
    ensures unchanged { OnErr result (feed.new ≡ feed.old) }
{
    let entry = joined(alloc, answer)?;
    let taken = taken(&entry);
    feed.put(*namespace, entry)?;
    Ok(taken)
}

/// Takes an answer at the last height.
fn take<F: Filter>(
    alloc: Global,
    filter: &F,
    last: &mut Last,
    namespace: &Namespace,
    answer: &NsAnswer,
) -> Result<Taken, FollowError>
    requires filter { IsFilter F.can_ask F.answers filter.now }
    ensures taken { IfOk result (λ taken. taken ≡ brought_by (blobs_joined (shares_shown answer.now))) }
    ensures accepts { OnOk result
        (IsNew (F.answers filter.now namespace.now) last.old namespace.now answer.now) }
    ensures refused { (why : Refusal) → (why ≡ Full → ⊥) → IsErrOf result why ↔
        IsAnswerRefusedFor (F.answers filter.now namespace.now) last.old namespace.now answer.now why }
    ensures entered { OnOk result
        (IsEntered last.old.feed last.new.feed namespace.now answer.now) }
    ensures header { last.new.header ≡ last.old.header }
    ensures fed { HadMemory result → (height : Height) → last.old.header ≡ height.header →
        AreFed (wanted_by F.answers filter.now) last.old.feed height →
        AreFed (wanted_by F.answers filter.now) last.new.feed
        (with_answer height (record { name = namespace.now; answer = answer.now })) }
    ensures unchanged { OnErr result (last.new ≡ last.old) }
{
    namespace_law(namespace);
    name_laws();
    answer_laws();
    judge(filter, last, namespace, answer)?;
    match enter(alloc, &mut last.feed, namespace, answer) {
        Ok(taken) => Ok(taken),
        Err(NoMemory) => Err(FollowError::NoMemory),
    }
}

impl<F: Filter> Follower<F> {
    /// A follower with no heights, which takes its memory from `alloc` later on. The filter may be
    /// asked of every namespace, and never answers both true and false to one. It takes no memory.
    pub fn new(alloc: Global, filter: F) -> Follower<F>
        requires filter { IsFilter F.can_ask F.answers filter }
        ensures filter { result.filter ≡ filter }
        ensures count { height_count result ≡ 0 }
        ensures stands { FollowerStands (wanted_by F.answers filter) result [] }
    {
        Follower {
            alloc,
            filter,
            past: Vec::new(alloc),
            last: None,
        }
    }

    /// How many heights there are. It takes no memory.
    pub fn heights(&self) -> u32
        ensures { result ≡ height_count self.now }
    {
        let count = self.past.len() as u32;
        if self.last.is_some() {
            count + 1
        } else {
            count
        }
    }

    /// Takes the header of the next height; the first is height 0. There are fewer than
    /// 4,294,967,295 heights before it.
    ///
    /// It refuses only where there is no memory. Then the header is dropped, and nothing has
    /// changed.
    pub fn header(&mut self, header: Header) -> Result<(), NoMemory>
        requires few { height_count self.old < 2 ^ 32 - 1 }
        ensures stands { OnOk result ((items : List Item) →
            FollowerStands (wanted_by F.answers self.old.filter) self.old items →
            FollowerStands (wanted_by F.answers self.old.filter) self.new
            (items ++ headed header ∷ [])) }
        ensures count { OnOk result (height_count self.new ≡ height_count self.old + 1) }
        ensures filter { self.new.filter ≡ self.old.filter }
        ensures unchanged { OnErr result (self.new ≡ self.old) }
    {
        if self.past.reserve(1).is_err() {
            return Err(NoMemory);
        }
        let next = Last {
            header,
            feed: Feed::new(self.alloc),
        };
        if let Some(before) = self.last.replace(next) {
            let Last { header: _, feed } = before;
            put_feed(&mut self.past, feed);
        }
        Ok(())
    }

    /// Takes an answer for a namespace at the last height; there is one. What its shares are read
    /// as becomes the entry of this height and namespace, and is answered: the number of the blobs,
    /// or why the shares are none.
    ///
    /// Refuses a namespace that isn't one of a blob (`NotBlob`), then one that the filter doesn't
    /// want (`Unwanted`), then an answer that isn't complete under the last header (`Refused`, as
    /// `check_namespace`), then one for a namespace of which this height has an entry (`Twice`),
    /// then out of memory. A refusal changes nothing.
    ///
    /// Celestia specifications, "Data Structures", namespace proofs; docs/RULES.md, "Following
    /// namespaces".
    pub fn answer(&mut self, namespace: &Namespace, answer: &NsAnswer) -> Result<Taken, FollowError>
        requires height { 1 ≤ height_count self.old }
        ensures taken { IfOk result (λ taken.
            taken ≡ brought_by (blobs_joined (shares_shown answer.now))) }
        ensures entered { OnOk result (IsLastEntry self.new namespace.now answer.now) }

        // The checks, at the last height.
        ensures accepts { OnOk result ((last : LastParts) × (self.old.last ≡ Some last) ×
            IsNew (F.answers self.old.filter namespace.now) last namespace.now answer.now) }
        ensures refused { (last : LastParts) → self.old.last ≡ Some last →
            (why : Refusal) → (why ≡ Full → ⊥) → IsErrOf result why ↔
            IsAnswerRefusedFor (F.answers self.old.filter namespace.now) last namespace.now
            answer.now why }

        // The first two one by one: a namespace that isn't one of a blob, then one that the filter doesn't want,
        // whatever the answer is.
        ensures not_blob { (why : NameRefusal) → IsErrOf result (NotBlob why) ↔
            (namespace_refusal namespace.now.0 ≡ Some why) }
        ensures unwanted { IsErrOf result Unwanted ↔
            (namespace_refusal namespace.now.0 ≡ None)
            × F.answers self.old.filter namespace.now false }

        // It stands for the answer too, refused or not, unless memory ran out.
        ensures stands { HadMemory result → (items : List Item) →
            FollowerStands (wanted_by F.answers self.old.filter) self.old items →
            FollowerStands (wanted_by F.answers self.old.filter) self.new
            (items ++ answered (record { name = namespace.now; answer = answer.now }) ∷ []) }
        ensures count { height_count self.new ≡ height_count self.old }
        ensures filter { self.new.filter ≡ self.old.filter }
        ensures unchanged { OnErr result (self.new ≡ self.old) }
    {
        namespace_law(namespace);
        answer_law(answer);
        let Some(last) = &mut self.last else {
            unreachable!();
        };
        take(self.alloc, &self.filter, last, namespace, answer)
    }

    /// What is kept of a namespace at a height.
    fn find(&self, height: u32, namespace: &Namespace) -> Option<&Entry>
        ensures { option_copied result ≡ kept_at self.now height namespace.now }
    {
        let place = height as usize;
        if place < self.past.len() {
            return self.past[place].get(namespace);
        }
        let Some(last) = &self.last else {
            return None;
        };
        if place > self.past.len() {
            return None;
        }
        last.feed.get(namespace)
    }

    /// The entry of a namespace at a height, counted from 0; none where there is no such height, or
    /// no entry of it there. It takes no memory.
    ///
    /// docs/RULES.md, "Following namespaces".
    pub fn entry(&self, height: u32, namespace: &Namespace) -> Option<&Entry>
        ensures kept { option_copied result ≡ kept_at self.now height namespace.now }
        ensures stands { (items : List Item) →
            FollowerStands (wanted_by F.answers self.now.filter) self.now items →
            FeedsAt (wanted_by F.answers self.now.filter) items height namespace.now
            (option_map read_of (option_copied result)) }
    {
        self.find(height, namespace)
    }
}
