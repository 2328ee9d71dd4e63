//! Of followers.

ghost use Rattle.std.specs.Prelude.{◌≡◌, ◌<◌, ◌≤◌, ◌^◌, ◌-◌, ℕ, List, Result, Some, true};
ghost use Rattle.std.specs.Option.{option_map};
ghost use Rattle.namespace_id.specs.declared.namespaces.Namespace.{Namespace as Name};
ghost use Rattle.blob_feed.specs.declared.entries.FollowError.TheVariants as follow;
ghost use Rattle.blob_feed.specs.declared.reading.ReadError.TheVariants as read;
ghost use Rattle.blob_feed.specs.declared.followers.Last.{Last as LastParts};
ghost use Rattle.blob_feed.specs.Filters.{wanted_by};
ghost use Rattle.blob_feed.specs.Feeds.{Item, read_of};
ghost use Rattle.blob_feed.specs.Followers.{height_count, kept_at, FollowerStands};
ghost use Rattle.one_answer.specs.Ones.{AreOne};

use axis_roots::NsAnswer;
use blob_feed::{Entry, Filter, FollowError, Follower, ReadError, Taken, feed_laws, read_answer};
use data_header::Header;
use namespace_id::{Namespace, NoMemory};
use std::alloc::Global;

/// One answer under one header is read as one thing.
pub fn read_twice(
    alloc: Global,
    header: &Header,
    namespace: &Namespace,
    answer: &NsAnswer,
) -> (Result<Entry, ReadError>, Result<Entry, ReadError>)
    ensures { AreOne read_of read.NoMemory result.0 result.1 }
{
    let first = read_answer(alloc, header, namespace, answer);
    let second = read_answer(alloc, header, namespace, answer);
    (first, second)
}

/// A follower answers one thing to an answer.
pub fn answer_twice<F: Filter>(
    one: &mut Follower<F>,
    other: &mut Follower<F>,
    namespace: &Namespace,
    answer: &NsAnswer,
) -> (Result<Taken, FollowError>, Result<Taken, FollowError>)
    requires height { 1 ≤ height_count one.old }
    requires same { other.old ≡ one.old }
    ensures { (last : LastParts) → one.old.last ≡ Some last → AreOne (λ x. x) follow.NoMemory result.0 result.1 }
{
    let first = one.answer(namespace, answer);
    let second = other.answer(namespace, answer);
    (first, second)
}

/// Two followers that stand for the same headers and answers have one entry of each namespace at each height, or
/// none.
pub fn entries_twice<F: Filter>(one: &Follower<F>, other: &Follower<F>)
    requires filter { other.now.filter ≡ one.now.filter }
    ensures { (items : List Item) → FollowerStands (wanted_by F.answers one.now.filter) one.now items →
        FollowerStands (wanted_by F.answers one.now.filter) other.now items → (n : ℕ) (name : Name) →
        option_map read_of (kept_at one.now n name) ≡ option_map read_of (kept_at other.now n name) }
{
    feed_laws::<F>();
}

/// So have they after one header more.
pub fn header_twice<F: Filter>(
    one: &mut Follower<F>,
    other: &mut Follower<F>,
    header: Header,
    copy: Header,
) -> bool
    requires few { height_count one.old < 2 ^ 32 - 1 }
    requires same { other.old ≡ one.old }
    requires copy { copy ≡ header }
    ensures { (items : List Item) → FollowerStands (wanted_by F.answers one.old.filter) one.old items →
        result ≡ true → (n : ℕ) (name : Name) →
        option_map read_of (kept_at one.new n name) ≡ option_map read_of (kept_at other.new n name) }
{
    let Ok(()) = one.header(header) else {
        return false;
    };
    let Ok(()) = other.header(copy) else {
        return false;
    };
    entries_twice(one, other);
    true
}

/// So have they after one answer more that both take.
pub fn answered_twice<F: Filter>(
    one: &mut Follower<F>,
    other: &mut Follower<F>,
    namespace: &Namespace,
    answer: &NsAnswer,
) -> bool
    requires height { 1 ≤ height_count one.old }
    requires same { other.old ≡ one.old }
    ensures { (items : List Item) → FollowerStands (wanted_by F.answers one.old.filter) one.old items →
        result ≡ true → (n : ℕ) (name : Name) →
        option_map read_of (kept_at one.new n name) ≡ option_map read_of (kept_at other.new n name) }
{
    let Ok(_taken) = one.answer(namespace, answer) else {
        return false;
    };
    let Ok(_again) = other.answer(namespace, answer) else {
        return false;
    };
    entries_twice(one, other);
    true
}
