//! What is spelled is read, and what is read is spelled.

ghost use Rattle.std.specs.Prelude.{◌≡◌, ◌≢◌, ◌<◌, ◌≤◌, ◌*◌, ◌^◌, ◌↔◌, ℕ, List, [], true, false, length, IsSome};
ghost use Rattle.namespace_id.specs.declared.cells.Axis.{Axis};
ghost use Rattle.namespace_id.specs.declared.cells.Cell.{Cell};
ghost use Rattle.namespace_id.specs.declared.namespaces.Namespace as names;
ghost use Rattle.namespace_id.specs.Names.{IsNamespace};
ghost use Rattle.namespace_id.specs.Cells.{CellList, AreCells};
ghost use Rattle.data_header.specs.Headers.{Roots, IsHeader};
ghost use Rattle.data_header.specs.Paths.{most_hashes};
ghost use Rattle.namespace_id.specs.Shares.{AreShares};
ghost use Rattle.axis_roots.specs.declared.message.messages.Message as sent;
ghost use Rattle.axis_roots.specs.Messages.{IsMessage};
ghost use Rattle.axis_roots.specs.declared.answers.NsEntry.{NsEntry};
ghost use Rattle.axis_roots.specs.Answers.{AreEntries};
ghost use Rattle.axis_roots.specs.Claims.{ClaimParts, IsClaim, Accepts};
ghost use Rattle.square_layout.specs.Blocks.{SquareShares, IsSquare};
ghost use Rattle.hash_clash.specs.Collisions.{Strings};
ghost use Rattle.blob_commit.specs.Proofs.{CommitParts, RootedParts, has_commit_shape};
ghost use Rattle.namespace_id.specs.Sizes.{most_nodes};
ghost use Rattle.da_wire.specs.declared.frames.Frame.TheVariants.{Header, Square, Message, Names, Fraud, Missing, Clash, Sample, Request, Commit, Rooted, Transactions, Refusal, State};
ghost use Rattle.da_wire.specs.Spelling.{spelling};
ghost use Rattle.frame_payloads.specs.Payloads.{max_payload};
ghost use Rattle.frame_payloads.specs.kinds.Names.{most_entries, most_shares_shown, is_long_answer};
ghost use Rattle.frame_payloads.specs.kinds.Fraud.{most_cells, most_set_nodes, is_unwritten};
ghost use Rattle.frame_payloads.specs.kinds.Clash.{AreStrings, has_empty};
ghost use Rattle.frame_payloads.specs.kinds.Commit.{most_rows, most_row_subtrees, IsCommitSent, is_long_commit};
ghost use Rattle.frame_payloads.specs.declared.refusals.Refusal as refusals;
ghost use Rattle.frame_payloads.specs.kinds.Refusal.{IsRefusal};
ghost use Rattle.frame_payloads.specs.kinds.Rooted.{IsRootedSent};
ghost use Rattle.frame_payloads.specs.kinds.Transactions.{transactions_payload};
ghost use Rattle.da_wire.specs.Laws.{SpelledIsRead, ReadIsSpelled, OneSpelling, OnlyIsSpelled, SpelledIsOnly, MessageIsRead, MessageIsSpelled, RawIsFrame, FramesAreTheFile, FilesAreFrames, BadFrameIsFirst, ValuesAreTheFile, FilesAreValues, BadValueIsFirst};
ghost use Rattle.da_wire.specs.Streams.{EveryCutting, FramesStay, LastIsTold};

use blob_commit::shape_laws;
use frame_payloads::MAX_PAYLOAD;

/// Each value has at most one spelling, and no spelling is a proper prefix of another; what is read is
/// what was spelled.
pub fn wire_laws()
    ensures read { SpelledIsRead }
    ensures spelled { ReadIsSpelled }
    ensures one { OneSpelling }
    ensures only { OnlyIsSpelled }
    ensures only_read { SpelledIsOnly }

    // What has a spelling: a claim that is accepted is one that can be written, and so is a commitment
    // proof that has its shape. Missing cells are at most as many as their square has. Transactions have
    // one exactly where their payload is within its limit.
    ensures headers { (header : Roots) → IsHeader header → IsSome (spelling (Header header)) }
    ensures squares { (square : SquareShares) → IsSquare square → AreShares square.shares →
        IsSome (spelling (Square square)) }
    ensures messages { (m : sent.Message) → IsMessage m → IsSome (spelling (Message m)) }
    ensures names { (name : names.Namespace) (answer : List NsEntry) → IsNamespace name →
        AreEntries answer → is_long_answer answer ≡ false → IsSome (spelling (Names name answer)) }
    ensures claims { (claim : ClaimParts) → IsClaim claim → is_unwritten claim ≡ false →
        IsSome (spelling (Fraud claim)) }
    ensures accepted { (header : Roots) (claim : ClaimParts) → Accepts header claim →
        is_unwritten claim ≡ false }
    ensures missing { (cells : CellList) → AreCells cells → cells.list ≢ [] →
        IsSome (spelling (Missing cells)) }
    ensures cells { (cells : CellList) → AreCells cells →
        length cells.list ≤ 4 * (cells.k * cells.k) }
    ensures samples { (cell : Cell) (axis : Axis) → IsSome (spelling (Sample cell axis)) }
    ensures requests { (name : names.Namespace) → IsNamespace name →
        IsSome (spelling (Request name)) }

    ensures commits { (proof : CommitParts) → IsCommitSent proof → is_long_commit proof ≡ false →
        IsSome (spelling (Commit proof)) }
    ensures shaped { (proof : CommitParts) → has_commit_shape proof ≡ true →
        is_long_commit proof ≡ false }
    ensures rooted { (proof : RootedParts) → IsRootedSent proof → IsSome (spelling (Rooted proof)) }
    ensures transactions { (units : List (List ℕ)) →
        IsSome (spelling (Transactions units)) ↔ (length (transactions_payload units) ≤ max_payload) }
    ensures refusals { (refusal : refusals.Refusal) → IsSome (spelling (Refusal refusal)) }
    ensures states { IsSome (spelling State) }

    // The payloads of samples.
    ensures message_read { MessageIsRead }
    ensures message_spelled { MessageIsSpelled }

    // Frames of any kind, and files that are lists of them.
    ensures raw { RawIsFrame }
    ensures frames { FramesAreTheFile }
    ensures files { FilesAreFrames }
    ensures bad { BadFrameIsFirst }
    ensures limit { MAX_PAYLOAD ≡ max_payload }
{
    shape_laws();
}

/// A file that is a list of frames in the grammar, of some kinds, is the spellings of its values, one
/// after another.
pub fn value_laws()
    ensures values { ValuesAreTheFile }
    ensures files { FilesAreValues }
    ensures bad { BadValueIsFirst }

    // A collision of two strings that aren't empty has a spelling, and cells of a square have a count
    // of four bytes.
    ensures clash { (clash : Strings) → AreStrings clash → has_empty clash ≡ false →
        IsSome (spelling (Clash clash)) }
    ensures few_cells { (cells : CellList) → AreCells cells → length cells.list < 2 ^ 32 }
{}

/// Over every cutting of a byte string a stream answers its frames, and the frames of bytes stay whatever
/// bytes follow. What a stream tells of whole frames is the last of them.
pub fn stream_laws()
    ensures cutting { EveryCutting }
    ensures stay { FramesStay }
    ensures last { LastIsTold }
{}

/// The limits of payloads, as numbers.
pub fn limit_laws()
    // A payload has at most 256 MiB.
    ensures payload { max_payload ≡ 256 * (1024 * 1024) }

    // A namespace answer has at most 512 entries, each of at most 512 shares and 20 nodes.
    ensures entries { most_entries ≡ 512 }
    ensures shares { most_shares_shown ≡ 512 }
    ensures nodes { most_nodes ≡ 20 }

    // A fraud claim has at most 512 cells, and its set at most 512 nodes.
    ensures claim_cells { most_cells ≡ 512 }
    ensures set_nodes { most_set_nodes ≡ 512 }

    // A commitment proof has at most 512 rows, each of at most 512 subtrees and 11 hashes.
    ensures rows { most_rows ≡ 512 }
    ensures subtrees { most_row_subtrees ≡ 512 }
    ensures hashes { most_hashes ≡ 11 }
{}
