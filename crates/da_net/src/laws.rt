//! What a network promises, whatever is put, handed and published in which order ever.

ghost use Rattle.std.specs.Prelude.{◌≡◌, ◌↔◌, ◌⊎◌, ◌++◌, ℕ, List};
ghost use Rattle.std.specs.List.{Contains};
ghost use Rattle.namespace_id.specs.declared.cells.Cell.{Cell as Place};
ghost use Rattle.data_header.specs.Headers.{Roots, AreRoots};
ghost use Rattle.square_layout.specs.Blocks.{SquareShares};
ghost use Rattle.axis_roots.specs.declared.message.messages.Message.{Message as Sent};
ghost use Rattle.axis_roots.specs.Openings.{IsProved};
ghost use Rattle.axis_roots.specs.Grids.{IsHeaderOf};
ghost use Rattle.axis_roots.specs.Claims.{ClaimParts, Accepts};
ghost use Rattle.repair_queue.specs.Closures.{Half};
ghost use Rattle.repair_queue.specs.Settled.{IsSettled};
ghost use Rattle.repair_queue.specs.Verdicts.{IsVerdict, whole};
ghost use Rattle.da_net.specs.declared.items.Item.{Item as Handed};
ghost use Rattle.da_net.specs.declared.items.Item.TheVariants as item;
ghost use Rattle.da_net.specs.declared.items.Kept.{Kept as Step};
ghost use Rattle.da_net.specs.Networks.{messages_of, NodeKind, full, Network, Standing, settled, rejecting, NodeMayStand, IsRejecting, IsClashing, handed, IsRun};
ghost use Rattle.da_net.specs.Promises.{WasHanded, HasAllCells, Reached};
ghost use Rattle.da_net.specs.Laws.{ClaimsReject, AlarmsAreNamed, OtherAlarmsAreNamed, OneSquare, PlannedAreRecoverable, AllAreRecoverable};

/// What is proved of the items that nodes are handed.
///
/// docs/RULES.md, "Networks".
pub fn delivery_laws()
    // A node was handed exactly those items of the pool that a step handed to it.
    ensures handed { (pool : List Handed) (steps : List Step) (node : ℕ) (one : Handed) →
        Contains (handed pool steps node) one ↔ WasHanded pool steps node one }

    // What it was handed is not taken back, whatever comes later, and stays in the pool.
    ensures stays { (pool later : List Handed) (steps more : List Step) (node : ℕ) (one : Handed) →
        Contains (handed pool steps node) one →
        Contains (handed (pool ++ later) (steps ++ more) node) one }
    ensures pooled { (pool : List Handed) (steps : List Step) (node : ℕ) (one : Handed) →
        Contains (handed pool steps node) one → Contains pool one }

    // Of one run what a node was handed goes on.
    ensures goes_on { (net : Network) (pool later : List Handed) (steps more : List Step)
        (node : ℕ) → IsRun net pool steps → (rest : List Handed)
        × (handed (pool ++ later) (steps ++ more) node ≡ handed pool steps node ++ rest) }
{}

/// What is proved of nodes that reject.
///
/// docs/RULES.md, "Networks".
pub fn rejection_laws()
    // Who rejects holds an accepted claim.
    ensures holds { (header : Roots) (kind : NodeKind) (items : List Handed) (claim : ClaimParts) →
        NodeMayStand header kind items (rejecting claim) → Accepts header claim }

    // Who was handed an accepted claim rejects from then on, whatever comes later.
    ensures rejects { ClaimsReject }

    // A full node that neither rejects nor shows a collision is settled.
    ensures settled { (header : Roots) (items : List Handed) (standing : Standing) →
        NodeMayStand header full items standing → IsRejecting standing ⊎
        (IsClashing standing ⊎ ((standing ≡ settled) × IsSettled header (messages_of items))) }

    // Under the header of a square a node rejects or has a collision only where a sample in the pool,
    // by itself or in a claim, or the set of a claim, and the square name a collision.
    ensures own { AlarmsAreNamed }
{}

/// What is proved of full nodes that are settled and to which all cells are recoverable.
///
/// docs/RULES.md, "Networks".
pub fn agreement_laws()
    // Such a node has a square whose header is the network's.
    ensures square { (header : Roots) (items : List Handed) → AreRoots header →
        HasAllCells header items →
        (square : SquareShares) × IsVerdict header (messages_of items) (whole square) }
    ensures header { (header : Roots) (items : List Handed) (square : SquareShares) →
        IsVerdict header (messages_of items) (whole square) → IsHeaderOf header square }

    // Then another node rejects or has a collision only where a sample in the pool, by itself or in a
    // claim, or the set of a claim, and this square name a collision; and another such node has this square, or they do.
    ensures others { OtherAlarmsAreNamed }
    ensures same { OneSquare }
{}

/// What is proved of a full node that was handed all that light nodes were handed.
///
/// docs/RULES.md, "Networks".
pub fn joint_laws()
    // It rejects, or has a collision, or all cells that available light nodes planned are recoverable
    // to it: none of them is missing.
    ensures planned { PlannedAreRecoverable }

    // Where the closure by halves of these cells is the whole square, all cells are recoverable to it.
    ensures all { AllAreRecoverable }

    // The cells that are recoverable from samples are the closure by halves of the cells of those
    // that are proved.
    ensures closure { (header : Roots) (ms : List Sent) (cells : List Place) →
        ((cell : Place) → Contains cells cell
        ↔ ((m : Sent) × Contains ms m × IsProved header m × (m.cell ≡ cell))) →
        (cell : Place) → Half header ms cell ↔ Reached header.k cells cell }
{}
