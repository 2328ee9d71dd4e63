//! What is read of the square of a list of transactions: the list's blobs, namespace by namespace.

ghost use Rattle.std.specs.Prelude.{◌≡◌, ◌⊎◌, ℕ, List, true, None, Some, Ok};
ghost use Rattle.std.specs.List.{Contains};
ghost use Rattle.namespace_id.specs.declared.namespaces.Namespace.{Namespace as Name};
ghost use Rattle.namespace_id.specs.Bytes.{AreBytes};
ghost use Rattle.namespace_id.specs.Names.{IsNamespace, is_blob_namespace};
ghost use Rattle.share_split.specs.Walks.{blobs_joined};
ghost use Rattle.tx_list.specs.Payments.{ListParts};
ghost use Rattle.tx_list.specs.Refusals.{list_size_refusal};
ghost use Rattle.tx_list.specs.Lists.{square_of_list};
ghost use Rattle.data_header.specs.Headers.{Roots};
ghost use Rattle.axis_roots.specs.declared.answers.NsEntry.{NsEntry};
ghost use Rattle.axis_roots.specs.Answers.{AreEntries};
ghost use Rattle.axis_roots.specs.Grids.{IsHeaderOf};
ghost use Rattle.square_serve.specs.Answers.{IsComplete};
ghost use Rattle.square_serve.specs.Own.{AnswerNames};
ghost use Rattle.blob_feed.specs.Feeds.{header_at, Read, IsFeedOf, shares_in, shares_shown, FirstNames};
ghost use Rattle.da_following.specs.Follow.{RunFeed, items_in};
ghost use Rattle.da_following.specs.Listed.{HasBlobs, listed_blobs};

use crate::follow::follow_laws;
use square_serve::answer_laws;
use tx_list::{namespace_laws, square_laws};

/// What `namespace` and `follow` answer of the square of a list of transactions are the list's blobs of
/// the namespace, in the list's order, each with its signer. It changes nothing.
///
/// docs/RULES.md, "A block of the network".
pub fn listed_laws()
    // In the square of a list that isn't refused for its size, the shares of a namespace of a blob
    // are read as exactly the list's blobs of it.
    ensures read { (list : ListParts) (name : Name) → list_size_refusal list ≡ None → HasBlobs list →
        is_blob_namespace name.0 ≡ true →
        blobs_joined (shares_in (square_of_list list) name) ≡ Ok (listed_blobs list name) }

    // So are the shares that a complete answer shows under the header of that square, or the answer
    // and the square name a collision.
    ensures answers { (header : Roots) (list : ListParts) (name : Name) (answer : List NsEntry) →
        IsHeaderOf header (square_of_list list) → HasBlobs list → IsNamespace name →
        is_blob_namespace name.0 ≡ true → AreEntries answer → IsComplete header name answer →
        (blobs_joined (shares_shown answer) ≡ Ok (listed_blobs list name))
        ⊎ AnswerNames name (square_of_list list) answer }

    // At a height with such a header, what is told of a namespace is exactly these blobs, or the first
    // complete answer and the square name a collision.
    ensures followed { (wanted : List Name) (answers : List ℕ) (feed : RunFeed) (number : ℕ) (name : Name)
        (read : Read) (header : Roots) (list : ListParts) → AreBytes answers →
        IsFeedOf (Contains wanted) (items_in answers) feed → feed number name ≡ Some read →
        header_at (items_in answers) number ≡ Some header →
        IsHeaderOf header (square_of_list list) → HasBlobs list →
        (read ≡ Ok (listed_blobs list name))
        ⊎ FirstNames (items_in answers) number name (square_of_list list) }
{
    answer_laws();
    follow_laws();
    namespace_laws();
    square_laws();
}
