//! What the relation of a run says of each kind of words and files.

ghost use Rattle.std.specs.Prelude.{◌*◌, ◌≡◌, ◌↔◌, ◌⊎◌, ℕ, ◌+◌, true, false, List, [], ◌∷◌, length, map, Ok, Some, None};
ghost use Rattle.std.specs.List.{AllByRecursion, filter, Contains};
ghost use Rattle.namespace_id.specs.declared.cells.Axis.{Axis};
ghost use Rattle.namespace_id.specs.Bytes.{AreBytes};
ghost use Rattle.namespace_id.specs.Shares.{AreShares};
ghost use Rattle.share_split.specs.Walks.{blobs_joined};
ghost use Rattle.blob_feed.specs.Feeds.{Item, header_at, Read, IsFeedOf, shares_in, FirstNames};
ghost use Rattle.square_layout.specs.Blocks.{BlockParts, SquareShares, IsSquare, IsBlock};
ghost use Rattle.square_layout.specs.Layout.{block_square};
ghost use Rattle.square_layout.specs.Refusals.{layout_refusal};
ghost use Rattle.tx_list.specs.Reads.{list_of};
ghost use Rattle.tx_list.specs.Lists.{square_of_list};
ghost use Rattle.tx_list.specs.OfBytes.{IsOfBytes};
ghost use Rattle.axis_roots.specs.declared.message.messages.Message as sent;
ghost use Rattle.axis_roots.specs.Messages.{IsMessage};
ghost use Rattle.axis_roots.specs.Openings.{IsProved};
ghost use Rattle.axis_roots.specs.Grids.{IsHeaderOf};
ghost use Rattle.axis_roots.specs.Claims.{ClaimParts, Accepts};
ghost use Rattle.axis_roots.specs.declared.answers.NsEntry.{NsEntry};
ghost use Rattle.namespace_id.specs.declared.namespaces.Namespace as names;
ghost use Rattle.square_serve.specs.Answers.{IsComplete};
ghost use Rattle.data_header.specs.Headers.{Roots, AreRoots, IsHeader};
ghost use Rattle.da_wire.specs.declared.frames.Frame.TheVariants.{Header, Square, Request};
ghost use Rattle.da_wire.specs.Spelling.{spelling, IsFrame, sample_kind, request_kind};
ghost use Rattle.da_wire.specs.Values.{values_bytes, bad_value};
ghost use Rattle.da_wire.specs.Reading.{Raw};
ghost use Rattle.da_wire.specs.Frames.{frames_of};
ghost use Rattle.da_files.specs.Contents.{header_file, messages_file};
ghost use Rattle.da_judging.specs.declared.check.Finding.TheVariants.{Proved};
ghost use Rattle.da_status.specs.declared.status.Status.{Status};
ghost use Rattle.da_status.specs.declared.status.Status.TheVariants.{Done, Missing};
ghost use Rattle.da_cli.specs.Limits.{file_limit, stream_limit};
ghost use Rattle.da_files.specs.declared.frames.BlockOrList.{BlockOrList};
ghost use Rattle.da_files.specs.Frames.{header_in, square_in, block_or_list_frame, block_or_list_in};
ghost use Rattle.da_judging.specs.Check.{finding_of, is_ok, IsProvedFrame, IsOwnFrame};
ghost use Rattle.da_judging.specs.Compact.{CompactsJudged, CompactsOwn};
ghost use Rattle.da_judging.specs.Repair.{Repairs, RepairsOwn, RepairOf};
ghost use Rattle.da_judging.specs.Light.{Lights, JudgesOwn};
ghost use Rattle.da_script.specs.Plays as plays;
ghost use Rattle.da_script.specs.Alarms.{TellsOwn};
ghost use Rattle.da_commands.specs.Net.{Nets};
ghost use Rattle.da_serving.specs.Build.{list_refusal};
ghost use Rattle.da_commands.specs.Cells.{AsksFirst};
ghost use Rattle.da_serving.specs.Prove.{ProvesRange};
ghost use Rattle.da_serving.specs.Sample.{sample_request, samples_in};
ghost use Rattle.da_files.specs.Requests.{namespaces_in};
ghost use Rattle.da_judging.specs.declared.answers.Answer.{Answer};
ghost use Rattle.da_judging.specs.declared.answers.Answer.TheVariants.{Message, Names, Fraud, Commit, Rooted};
ghost use Rattle.da_judging.specs.declared.answers.Request as requests;
ghost use Rattle.da_judging.specs.Answers.{answer_frame, is_answer_to, IsAnswerTo};
ghost use Rattle.da_judging.specs.Verify.{IsAnswerRefusal, answer_in, IsOwnReply};
ghost use Rattle.da_judging.specs.VerifyFor.{IsRefusalFor};
ghost use Rattle.da_judging.specs.VerifyCommitment.{states_commitment, StatesCommitment};
ghost use Rattle.da_judging.specs.Root.{root_refusal};
ghost use Rattle.da_following.specs.Follow.{items_in, RunFeed, Follows};
ghost use Rattle.data_header.specs.DataRoots.{data_root_of};
ghost use Rattle.blob_commit.specs.Proofs.{CommitParts, CommitHolds, RootedParts, RootedHolds};
ghost use Rattle.da_cli.specs.Own.{ProvesOwn};
ghost use Rattle.da_cli.specs.Laws.{FormLaw, BadInputLaw, ExcessLaw, AbsentLaw, FailureLaw, IsWantedFirst};

use crate::files::FILE_LIMIT;
use crate::passes::STREAM_LIMIT;
use axis_roots::{claim_laws, grid_laws, message_laws};
use blob_commit::{commit_laws, refusal_laws};
use da_commands::follow_laws;
use da_script::alarm_laws;
use da_wire::{value_laws, wire_laws};
use repair_queue::verdict_laws;
use square_layout::{name_laws, size_laws};
use square_serve::answer_laws;
use tx_list::{list_laws, square_laws};

/// What belongs to a run, by what its files hold, so that each refusal of `run` is exact.
pub fn run_laws()
    // Files in their forms, a file that isn't, a file that is too long, a file that isn't there.
    ensures form { FormLaw }
    ensures bad_input { BadInputLaw }
    ensures excess { ExcessLaw }
    ensures absent { AbsentLaw }

    // A failed pick, read or write and out of memory belong to no run.
    ensures failure { FailureLaw }

    // `ok` is answered exactly where the frame is a sample that is proved.
    ensures proved { (header : Roots) (frame : Raw) → AreRoots header → AreBytes frame.payload →
        (finding_of header frame ≡ Proved) ↔ IsProvedFrame header frame }

    // Under the header of a square `ok` is answered only where the sample shows the square's own
    // share, or they name a collision.
    ensures own { (header : Roots) (frame : Raw) (square : SquareShares) → AreBytes frame.payload →
        IsHeaderOf header square → finding_of header frame ≡ Proved → IsOwnFrame frame square }

    // An answer is not refused exactly where it is a sample that is proved, a namespace answer that is
    // complete, a fraud claim that is accepted, or a commitment proof or a root proof that holds under
    // the header's data root.
    ensures verified { (header : Roots) (message : sent.Message) → AreRoots header →
        IsMessage message → IsAnswerRefusal header (Message message) None ↔ IsProved header message }
    ensures complete { (header : Roots) (name : names.Namespace) (answer : List NsEntry) →
        IsAnswerRefusal header (Names name answer) None ↔ IsComplete header name answer }
    ensures upheld { (header : Roots) (claim : ClaimParts) →
        IsAnswerRefusal header (Fraud claim) None ↔ Accepts header claim }
    ensures committed { (header : Roots) (proof : CommitParts) →
        IsAnswerRefusal header (Commit proof) None ↔ CommitHolds (data_root_of header) proof }
    ensures rooted_sample { (header : Roots) (proof : RootedParts) → IsMessage proof.message →
        IsAnswerRefusal header (Rooted proof) None ↔ RootedHolds (data_root_of header) proof }

    // To a request an answer is not refused exactly where it is not without one and is to the request:
    // a sample, by itself or in a root proof, with the cell and the axis that are asked for, or a
    // namespace answer with the namespace that is. It is refused by the number 0, first of all, exactly
    // where it is to another.
    ensures asked { (header : Roots) (answer : Answer) (request : requests.Request) →
        IsRefusalFor (is_answer_to request answer) header answer None
        ↔ (IsAnswerRefusal header answer None × IsAnswerTo request answer) }
    ensures asked_other { (header : Roots) (answer : Answer) (request : requests.Request) →
        IsRefusalFor (is_answer_to request answer) header answer (Some 0)
        ↔ (is_answer_to request answer ≡ false) }
    ensures answers { (request : requests.Request) (answer : Answer) →
        (is_answer_to request answer ≡ true) ↔ IsAnswerTo request answer }

    // To a commitment an answer is not refused exactly where it is not without one and is a commitment
    // proof that states it. It is refused by the number 0, first of all, exactly where it is no such.
    ensures stated { (header : Roots) (answer : Answer) (commitment : List ℕ) →
        IsRefusalFor (states_commitment commitment answer) header answer None
        ↔ (IsAnswerRefusal header answer None × StatesCommitment commitment answer) }
    ensures stated_other { (header : Roots) (answer : Answer) (commitment : List ℕ) →
        IsRefusalFor (states_commitment commitment answer) header answer (Some 0)
        ↔ (states_commitment commitment answer ≡ false) }
    ensures states { (commitment : List ℕ) (answer : Answer) →
        (states_commitment commitment answer ≡ true) ↔ StatesCommitment commitment answer }

    // A header is not refused exactly where its data root is the one that it is to have.
    ensures rooted { (header : Roots) (root : List ℕ) →
        (root_refusal header root ≡ None) ↔ (data_root_of header ≡ root) }

    // Under the header of a square an answer is not refused only where it shows the square's own
    // share, exactly the square's shares of the namespace, or the commitment of the square's shares in its
    // range, or they name a collision; a fraud claim only where they name one.
    ensures own_answer { (header : Roots) (answer : Answer) (square : SquareShares) →
        IsFrame (answer_frame answer) → IsHeaderOf header square → IsAnswerRefusal header answer None →
        IsOwnReply answer square }

    // Under the header of a square `compact` refuses a claim, or a sample of it, or its set, and the
    // square name a collision.
    ensures own_compact { (header : Roots) (claim : ClaimParts) (square : SquareShares) (w : List ℕ)
        (status : Status) → IsHeaderOf header square → CompactsJudged header claim w status →
        CompactsOwn claim square status }

    // Under the header of a square what a repair writes is this square or the missing cells, or a
    // proved sample of the file and the square name a collision.
    ensures own_repair { (header : Roots) (frames : List Raw) (square : SquareShares) (w : List ℕ)
        (status : Status) → AllByRecursion (λ raw. AreBytes raw.payload) frames →
        IsHeaderOf header square → Repairs header frames w status →
        RepairsOwn header frames square w status }

    // The lies that a repair counts are the frames whose line of `check` isn't `ok`.
    ensures lies { (files : List (List ℕ)) (header : Roots) (w : List ℕ) (cells lies : ℕ) →
        header_in (header_file files) ≡ Ok header → RepairOf files w (Missing cells lies) →
        lies + length (filter (λ frame. is_ok (finding_of header frame))
        (frames_of (messages_file files))) ≡ length (frames_of (messages_file files)) }

    // Under the header of a square `light` writes no claim, or one of which a sample and the square
    // name a collision.
    ensures own_light { (header : Roots) (frames : List Raw) (square : SquareShares) (key : List ℕ)
        (count : ℕ) (w : List ℕ) (status : Status) → IsHeaderOf header square →
        Lights key count header frames w status → JudgesOwn square w status }

    // What `cells` writes is what `wanted` writes of the cells that `light` waits for without
    // messages.
    ensures cells_wanted { (header : Roots) (key : List ℕ) (count : ℕ) (axis : Axis) (w : List ℕ) →
        AsksFirst axis key count header w Done ↔ IsWantedFirst header key count axis w }

    // Under the header of a square `net` writes `rejected` or `clash` only where a sample among the
    // frames, by itself or in a claim, or the set of a claim, and the square name a collision.
    ensures own_net { (header : Roots) (frames : List Raw) (script : List ℕ) (square : SquareShares)
        (w : List ℕ) (status : Status) → IsHeaderOf header square →
        Nets header frames script w status → TellsOwn (plays.items_in frames) square w }

    // What is answered with `Done` to a range of a square is a commitment proof of its width and this
    // range, whose commitment is that of the square's shares in it, or they name a collision.
    ensures own_prove { (square : SquareShares) (start count : ℕ) (w : List ℕ) →
        ProvesRange square start count w Done → ProvesOwn square start count w }

    // For wanted namespaces, headers and answers `follow` has one output and one status.
    ensures one_follow { (wanted : List names.Namespace) (items : List Item) (w v : List ℕ)
        (one other : Status) → Follows wanted items w one → Follows wanted items v other →
        (w ≡ v) × (one ≡ other) }

    // At a height whose header is that of a square, what `follow` tells of a namespace is what the
    // square's shares of it are read as, or the first complete answer and the square name a collision.
    ensures own_follow { (wanted : List names.Namespace) (answers : List ℕ) (feed : RunFeed) (number : ℕ)
        (name : names.Namespace) (read : Read) (header : Roots) (square : SquareShares) →
        AreBytes answers → IsFeedOf (Contains wanted) (items_in answers) feed →
        feed number name ≡ Some read → header_at (items_in answers) number ≡ Some header →
        IsHeaderOf header square → (read ≡ blobs_joined (shares_in square name))
        ⊎ FirstNames (items_in answers) number name square }

    // A file is read as a header, a square, a block or a list of transactions, an answer exactly where
    // it is that value's one spelling.
    ensures header_file { (bytes : List ℕ) (header : Roots) → AreBytes bytes →
        (header_in bytes ≡ Ok header)
        ↔ (IsHeader header × (spelling (Header header) ≡ Some bytes)) }
    ensures square_file { (bytes : List ℕ) (square : SquareShares) → AreBytes bytes →
        (square_in bytes ≡ Ok square)
        ↔ (IsSquare square × AreShares square.shares × (spelling (Square square) ≡ Some bytes)) }
    ensures block_file { (bytes : List ℕ) (value : BlockOrList) → AreBytes bytes →
        (block_or_list_in bytes ≡ Ok value)
        ↔ (IsFrame (block_or_list_frame value) × (spelling (block_or_list_frame value) ≡ Some bytes)) }
    ensures answer_file { (bytes : List ℕ) (answer : Answer) → AreBytes bytes →
        (answer_in bytes ≡ Ok answer)
        ↔ (IsFrame (answer_frame answer) × (spelling (answer_frame answer) ≡ Some bytes)) }

    // A file of requests is exactly the spellings of the requests that are read of it, in their order.
    ensures sample_requests { (bytes : List ℕ) → AreBytes bytes →
        bad_value (sample_kind ∷ []) bytes ≡ None →
        values_bytes (map sample_request (samples_in bytes)) ≡ bytes }
    ensures namespace_requests { (bytes : List ℕ) → AreBytes bytes →
        bad_value (request_kind ∷ []) bytes ≡ None →
        values_bytes (map Request (namespaces_in bytes)) ≡ bytes }

    // The square of a block that isn't refused is read back from its spelling, and has a header. So has
    // that of a list of transactions.
    ensures built { (block : BlockParts) → IsBlock block → layout_refusal block ≡ None →
        (text : List ℕ) × (spelling (Square (block_square block)) ≡ Some text)
        × (square_in text ≡ Ok (block_square block)) }
    ensures headed { (block : BlockParts) → IsBlock block → layout_refusal block ≡ None →
        (header : Roots) × IsHeaderOf header (block_square block) }
    ensures built_list { (transactions : List (List ℕ)) → IsOfBytes (list_of transactions) →
        list_refusal transactions ≡ None → (text : List ℕ)
        × (spelling (Square (square_of_list (list_of transactions))) ≡ Some text)
        × (square_in text ≡ Ok (square_of_list (list_of transactions))) }
    ensures headed_list { (transactions : List (List ℕ)) → IsOfBytes (list_of transactions) →
        list_refusal transactions ≡ None →
        (header : Roots) × IsHeaderOf header (square_of_list (list_of transactions)) }
    ensures limit { FILE_LIMIT ≡ file_limit }
    ensures size { FILE_LIMIT ≡ 512 * (1024 * 1024) }
    ensures stream_limit { STREAM_LIMIT ≡ stream_limit }
    ensures stream_size { STREAM_LIMIT ≡ 2048 * (1024 * 1024) }
{
    message_laws();
    claim_laws();
    wire_laws();
    value_laws();
    grid_laws();
    size_laws();
    name_laws();
    list_laws();
    square_laws();
    answer_laws();
    verdict_laws();
    commit_laws();
    refusal_laws();
    follow_laws();
    alarm_laws();
}
