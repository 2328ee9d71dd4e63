//! follow WANTED ANSWERS: the blobs of namespaces from height to height, complete.

ghost use Rattle.std.specs.Prelude.{◌≡◌, ◌⊎◌, ◌↔◌, ◌+◌, ◌<◌, ◌≤◌, ◌^◌, ⊤, ℕ, List, Some, None, OnOk, IfOk, [], length};
ghost use Rattle.std.specs.List.{list_any, cons_option, Contains};
ghost use Rattle.namespace_id.specs.declared.namespaces.Namespace.{Namespace as Name};
ghost use Rattle.namespace_id.specs.Bytes.{AreBytes};
ghost use Rattle.share_split.specs.Walks.{blobs_joined};
ghost use Rattle.data_header.specs.Headers.{Roots};
ghost use Rattle.square_layout.specs.Blocks.{SquareShares};
ghost use Rattle.axis_roots.specs.Grids.{IsHeaderOf};
ghost use Rattle.blob_feed.specs.Feeds.{Item, Height, heights_of, header_at, Read, IsFeedOf, shares_in, FirstNames};
ghost use Rattle.blob_feed.specs.Followers.{is_name};
ghost use Rattle.da_status.specs.declared.status.Status.{Status as Ended};
ghost use Rattle.da_status.specs.declared.status.Status.TheVariants.{Done, Waiting};
ghost use Rattle.da_status.specs.Statuses.{status_kind, output};
ghost use Rattle.da_status.specs.Outcome.{EndsAtOnce};
ghost use Rattle.da_files.specs.Contents.{contents_of, file_of};
ghost use Rattle.da_files.specs.Forms.{IsJudged};
ghost use Rattle.da_files.specs.Requests.{failing_from, namespaces_in};
ghost use Rattle.da_following.specs.Follow.{is_followed, each_once, item_of, items_in, bad_feed, RunFeed, IsFeedText, run_places, missing_count, HasAll, feed_status, Follows, FollowsAsked, follow_judged, FollowOf};
ghost use Rattle.da_following.specs.Heights.{fed_by, IsOnWay, begun};
ghost use Rattle.da_status.specs.Judging.{Judged};

use crate::feed_lines::FeedText;
use crate::heights::Way;
use blob_feed::{Filter, feed_laws};
use da_files::{file, next_name, put};
use da_io::Sink;
use da_status::{Asked, Status};
use da_wire::{Frame, bad_value, next_value, value_laws};
use namespace_id::{Namespace, NoMemory};
use std::alloc::Global;
use std::collections::BTreeSet;
use std::marker::Model;

/// The kinds of the frames of ANSWERS.
const KINDS: &[u8] = b"HN";

/// A filter that wants the namespaces of a set, which contracts see as their list.
#[derive(Drop)]
struct Listed {
    names: BTreeSet<Namespace>,
}

impl Model for Listed {
    ghost use Rattle.std.specs.Prelude.{List};
    ghost use Rattle.namespace_id.specs.declared.namespaces.Namespace.{Namespace as Name};

    ghost Value = { List Name };

    ghost view = { λ listed. listed.names.keys };
}

impl Filter for Listed {
    ghost can_ask = { λ names name. ⊤ };

    ghost answers = { λ names name wanted. list_any (is_name name) names ≡ wanted };

    fn wants(&self, namespace: &Namespace) -> bool {
        self.names.contains(namespace)
    }
}

/// The number of the first namespace that is asked for and isn't one of a blob.
pub fn first_other(wanted: &[u8]) -> Option<u64>
    ensures { result ≡ failing_from is_followed 0 (namespaces_in wanted.now) }
{
    let mut rest = wanted;
    let mut number = 0;
    while let Some((name, after)) = next_name(rest) {
        if Namespace::blob(&name.0).is_err() {
            return Some(number);
        }
        number += 1;
        rest = after;
    }
    None
}

/// The set of the namespaces that are asked for.
fn wanted_set(alloc: Global, wanted: &[u8]) -> Result<BTreeSet<Namespace>, NoMemory>
    ensures { IfOk result (λ names. names.keys ≡ each_once (namespaces_in wanted.now)) }
{
    let mut names = BTreeSet::new(alloc);
    let mut rest = wanted;
    while let Some((name, after)) = next_name(rest) {
        if names.insert(name).is_err() {
            return Err(NoMemory);
        }
        rest = after;
    }
    Ok(names)
}

/// The namespaces of a set, ascending.
fn in_order(alloc: Global, names: &BTreeSet<Namespace>) -> Result<Vec<Namespace>, NoMemory>
    ensures { IfOk result (λ list. list.items ≡ names.now.keys) }
{
    Ok(names.iter().copied().collect::<Vec<Namespace>>(alloc)?)
}

/// The namespaces that are asked for, each once, ascending.
pub fn wanted_names(alloc: Global, wanted: &[u8]) -> Result<Vec<Namespace>, NoMemory>
    ensures { IfOk result (λ names. names.items ≡ each_once (namespaces_in wanted.now)) }
{
    let names = wanted_set(alloc, wanted)?;
    in_order(alloc, &names)
}

/// Where bytes aren't a list of headers and answers that begins with a header.
fn bad_feed(bytes: &[u8]) -> Option<u64>
    ensures { result ≡ bad_feed bytes.now }
{
    if bytes.first() == Some(&b'N') {
        Some(0)
    } else {
        bad_value(bytes, KINDS)
    }
}

/// Hands the header or the answer that a frame is to the way through a run. An answer for a namespace
/// that isn't wanted changes nothing.
fn hand(
    alloc: Global,
    frame: Frame,
    wanted: &Listed,
    names: &[Namespace],
    way: &mut Way,
) -> Result<(), NoMemory>
    requires names { wanted.now ≡ names.now }
    requires count { begun way.old < 2 ^ 64 }
    requires fits { way.old.told.missing ≤ length way.old.told.text.items }
    ensures way { OnOk result ((all : List Height) (later : List Item) →
        IsOnWay names.now all way.old (cons_option (item_of frame) later) →
        IsOnWay names.now all way.new later) }
    ensures count { OnOk result (begun way.new ≤ begun way.old + 1) }
    ensures fits { OnOk result (way.new.told.missing ≤ length way.new.told.text.items) }
{
    match frame {
        Frame::Header(header) => way.header(alloc, header, names),
        Frame::Names(name, answer) => {
            if wanted.wants(&name) {
                way.answer(alloc, &name, &answer)
            } else {
                Ok(())
            }
        }
        other => {
            drop(other);
            Ok(())
        }
    }
}

/// Hands the headers and answers in a file over, in their order.
fn hand_over(
    alloc: Global,
    wanted: &Listed,
    names: &[Namespace],
    answers: &[u8],
    way: &mut Way,
) -> Result<(), NoMemory>
    requires names { wanted.now ≡ names.now }
    requires count { begun way.old ≡ 0 }
    requires fits { way.old.told.missing ≤ length way.old.told.text.items }
    ensures way { OnOk result ((all : List Height) →
        IsOnWay names.now all way.old (items_in answers.now) → IsOnWay names.now all way.new []) }
    ensures count { OnOk result (begun way.new < 2 ^ 64) }
    ensures fits { OnOk result (way.new.told.missing ≤ length way.new.told.text.items) }
{
    let mut rest = answers;
    loop {
        let Ok(found) = next_value(alloc, rest, KINDS) else {
            return Err(NoMemory);
        };
        let Some((frame, after)) = found else {
            return Ok(());
        };
        hand(alloc, frame, wanted, names, way)?;
        rest = after;
    }
}

/// What is written for headers and answers, by the square of a header.
pub fn follow_laws()
    // For wanted namespaces, headers and answers there is one output and one status.
    ensures once { (wanted : List Name) (items : List Item) (w v : List ℕ) (one other : Ended) →
        Follows wanted items w one → Follows wanted items v other → (w ≡ v) × (one ≡ other) }

    // What heights feed of the wanted namespaces, each once, is their feed, where all can be followed.
    ensures fed { (wanted : List Name) (items : List Item) → failing_from is_followed 0 wanted ≡ None →
        IsFeedOf (Contains wanted) items (fed_by (each_once wanted) (heights_of items)) }

    // At a height whose header is that of a square, what is told of a namespace is what the square's
    // shares of it are read as, or the first complete answer and the square name a collision.
    ensures own { (wanted : List Name) (answers : List ℕ) (feed : RunFeed) (number : ℕ) (name : Name)
        (read : Read) (header : Roots) (square : SquareShares) → AreBytes answers →
        IsFeedOf (Contains wanted) (items_in answers) feed → feed number name ≡ Some read →
        header_at (items_in answers) number ≡ Some header → IsHeaderOf header square →
        (read ≡ blobs_joined (shares_in square name))
        ⊎ FirstNames (items_in answers) number name square }

    // A run is done exactly where something is had of each wanted namespace at each height. It waits
    // exactly where at places, one at least, nothing is had, and for as many.
    ensures done { (wanted : List Name) (items : List Item) (feed : RunFeed) (w : List ℕ)
        (status : Ended) → IsFeedOf (Contains wanted) items feed → Follows wanted items w status →
        (status ≡ Done) ↔ HasAll feed wanted (length (heights_of items)) }
    ensures waits { (wanted : List Name) (items : List Item) (feed : RunFeed) (w : List ℕ)
        (status : Ended) → IsFeedOf (Contains wanted) items feed → Follows wanted items w status →
        (n : ℕ) → (status ≡ Waiting n)
        ↔ ((1 ≤ n) × (missing_count feed (run_places wanted items) ≡ n)) }
{
    value_laws();
    feed_laws::<Listed>();
}

/// The lines of what comes of answers for the namespaces that are asked for, which are ones of blobs.
fn told(alloc: Global, wanted: &[u8], answers: &[u8]) -> Result<FeedText, NoMemory>
    requires { failing_from is_followed 0 (namespaces_in wanted.now) ≡ None }
    ensures { IfOk result (λ told. (feed : RunFeed)
        × IsFeedOf (Contains (namespaces_in wanted.now)) (items_in answers.now) feed
        × IsFeedText feed (run_places (namespaces_in wanted.now) (items_in answers.now)) told) }
{
    feed_laws::<Listed>();
    let names = wanted_set(alloc, wanted)?;
    let ascending = in_order(alloc, &names)?;
    let list: &[Namespace] = &ascending;
    let mut way = Way::new(alloc);
    hand_over(alloc, &Listed { names }, list, answers, &mut way)?;
    way.close(list)?;
    Ok(way.told)
}

/// The status of lines of which so many say that there is nothing.
pub fn feed_status(missing: u64) -> Status
    ensures value { result ≡ feed_status missing }
    ensures output { status_kind result ≡ output }
{
    if missing == 0 {
        Status::Done
    } else {
        Status::Waiting(missing)
    }
}

/// Writes the lines of what comes of answers for the namespaces that are asked for, as one piece, if all are
/// ones of blobs.
fn answer<O: Sink>(alloc: Global, wanted: &[u8], answers: &[u8], out: &mut O) -> Status
    ensures { EndsAtOnce (FollowsAsked (namespaces_in wanted.now) (items_in answers.now))
        (O.taken out.old) (O.taken out.new) (O.faults out.old) (O.faults out.new)
        (out.new ≡ out.old) result }
{
    match first_other(wanted) {
        Some(number) => Status::BadRequest(Asked::At(number)),
        None => match told(alloc, wanted, answers) {
            Ok(told) => put(&told.text, feed_status(told.missing), out),
            Err(_) => Status::NoMemory,
        },
    }
}

/// WANTED and ANSWERS, which are judged in this order: a list of requests for namespaces, and one of headers
/// and answers that begins with a header. It takes no memory.
fn wanted_and_answers(files: &[Vec<u8>]) -> Result<(&[u8], &[u8]), Status>
    ensures judged { IsJudged (follow_judged (contents_of files.now)) result }
    ensures wanted { IfOk result (λ read.
        read.0.now ≡ file_of (contents_of files.now) 0) }
    ensures answers { IfOk result (λ read.
        read.1.now ≡ file_of (contents_of files.now) 1) }
{
    let wanted = file(files, 0);
    if let Some(at) = bad_value(wanted, b"P") {
        return Err(Status::BadInput(0, at));
    }
    let answers = file(files, 1);
    match bad_feed(answers) {
        Some(at) => Err(Status::BadInput(1, at)),
        None => Ok((wanted, answers)),
    }
}

/// Answers what the answers in ANSWERS bring of the namespaces in WANTED, height by height. All
/// memory is taken before the write.
pub fn execute<O: Sink>(alloc: Global, files: &[Vec<u8>], out: &mut O) -> Status
    ensures { EndsAtOnce (Judged (follow_judged (contents_of files.now))
        (FollowOf (contents_of files.now))) (O.taken out.old) (O.taken out.new) (O.faults out.old)
        (O.faults out.new) (out.new ≡ out.old) result }
{
    let (wanted, answers) = match wanted_and_answers(files) {
        Ok(read) => read,
        Err(status) => return status,
    };
    answer(alloc, wanted, answers, out)
}
