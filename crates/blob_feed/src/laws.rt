//! What a feed is, and what it says of a square and of a block.

ghost use Rattle.std.specs.Prelude.{◌≡◌, ◌++◌, ℕ, List, true, Option, Some, None, Ok};
ghost use Rattle.std.specs.List.{filter};
ghost use Rattle.std.specs.Option.{option_map};
ghost use Rattle.namespace_id.specs.declared.namespaces.Namespace.{Namespace};
ghost use Rattle.namespace_id.specs.Names.{is_blob_namespace};
ghost use Rattle.share_split.specs.Walks.{blobs_joined};
ghost use Rattle.square_layout.specs.Blocks.{BlockParts, IsBlock};
ghost use Rattle.square_layout.specs.Layout.{has_name, block_square};
ghost use Rattle.square_layout.specs.Refusals.{layout_refusal};
ghost use Rattle.blob_feed.specs.Filters.{wanted_by};
ghost use Rattle.blob_feed.specs.Feeds.{Item, Height, Read, read_of, IsFedAt, FeedsAt, IsFeedOf, shares_in};
ghost use Rattle.blob_feed.specs.Firsts.{first_read};
ghost use Rattle.blob_feed.specs.Laws.{FeedsOfSquare, FeedsOfBlock};
ghost use Rattle.blob_feed.specs.Followers.{FollowerParts, FollowerStands, kept_at};

use crate::Filter;
use namespace_id::{PRIMARY_RESERVED_PADDING, namespace_law, reserved_namespaces};
use share_split::join_laws;
use square_layout::{order_laws, share_laws, size_laws};
use square_serve::answer_laws;

/// The laws of what a follower keeps. It does nothing.
pub fn feed_laws<F: Filter>()
    // The entries of a follower are the feed of the headers and answers for which it stands.
    ensures feed { (follower : FollowerParts F) (items : List Item) →
        FollowerStands (wanted_by F.answers follower.filter) follower items →
        IsFeedOf (wanted_by F.answers follower.filter) items
        (λ number name. option_map read_of (kept_at follower number name)) }

    // There is one feed.
    ensures once { (rule : F) (items : List Item) (number : ℕ) (name : Namespace)
        (one other : Option Read) →
        FeedsAt (wanted_by F.answers rule) items number name one →
        FeedsAt (wanted_by F.answers rule) items number name other → one ≡ other }

    // As a value, it is what the first complete answer of the height is read as.
    ensures first { (rule : F) (height : Height) (name : Namespace) →
        wanted_by F.answers rule name → is_blob_namespace name.0 ≡ true →
        IsFedAt (wanted_by F.answers rule) height name
        (first_read height.header name height.answers) }

    // What a height has of a namespace stays, whatever is handed later.
    ensures stays { (rule : F) (items later : List Item) (number : ℕ) (name : Namespace)
        (read : Read) → FeedsAt (wanted_by F.answers rule) items number name (Some read) →
        FeedsAt (wanted_by F.answers rule) (items ++ later) number name (Some read) }

    // At a height whose header is that of a square, it is what the square's shares of the namespace
    // are read as, or the first complete answer and the square name a collision.
    ensures own { (rule : F) → FeedsOfSquare (wanted_by F.answers rule) }

    // In the square of a block, the shares of a namespace of a blob are read as the block's blobs
    // of it, with their signers, in the block's order.
    ensures joined { (block : BlockParts) (name : Namespace) → layout_refusal block ≡ None →
        IsBlock block → is_blob_namespace name.0 ≡ true →
        blobs_joined (shares_in (block_square block) name) ≡ Ok (filter (has_name name) block.blobs) }

    // So it is exactly these where the header is that of the square of a block.
    ensures block { (rule : F) → FeedsOfBlock (wanted_by F.answers rule) }
{
    answer_laws();
    join_laws();
    order_laws();
    share_laws();
    size_laws();
    namespace_law(&PRIMARY_RESERVED_PADDING);
    reserved_namespaces();
}
