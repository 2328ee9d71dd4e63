//! What is proved of the network of a script, and of what its lines say.

ghost use Rattle.std.specs.Prelude.{◌≡◌, ℕ, ◌≤◌, ◌↔◌, nat_lt, List, ◌∷◌, ◌++◌, length, Some, false};
ghost use Rattle.std.specs.List.{list_any};
ghost use Rattle.data_header.specs.Headers.{Roots};
ghost use Rattle.square_layout.specs.Blocks.{SquareShares};
ghost use Rattle.axis_roots.specs.Grids.{IsHeaderOf};
ghost use Rattle.sampling.specs.Draws.{draw_limit};
ghost use Rattle.da_net.specs.declared.items.Item.{Item as Put};
ghost use Rattle.da_net.specs.declared.items.NetEvent.{NetEvent as Given};
ghost use Rattle.da_net.specs.Nets.{NetParts, is_full, is_too_many};
ghost use Rattle.da_script.specs.declared.reading.Move.{Move as Played};
ghost use Rattle.da_script.specs.Scripts.{full_count, draws_of};
ghost use Rattle.da_script.specs.Plays.{pooling, put_bytes, is_refused, event_of, first_net, GoOn, TellsPlay};
ghost use Rattle.da_script.specs.Alarms.{TellsOwn};

use da_net::rejection_laws;

/// The network of a script has room for each of the script's events, whichever of those before have happened. The events
/// put up to 536,870,912 bytes of items, and no more. It does nothing.
pub fn script_laws()
    ensures room { (items : List Put) (header : Roots) (script : List ℕ) (before after : List Played)
        (one : Played) (net : NetParts) (lines : List ℕ) →
        GoOn items (first_net header (before ++ one ∷ after) script) before net lines →
        (given : Given) → event_of items one ≡ Some given → is_full net given ≡ false }
    ensures bytes { (k : ℕ) (sizes : List ℕ) (moves : List Played) (script : List ℕ) →
        (is_refused k sizes moves script ≡ false) ↔
        (is_too_many (full_count script) (length (draws_of script)) (pooling moves) (length moves) ≡
        false) × (put_bytes sizes moves ≤ 536870912) ×
        (list_any (λ draw. nat_lt (draw_limit k) draw.count) (draws_of script) ≡ false) }
{}

/// Under the header of a square the lines of a script say `rejected` or `clash` only where a sample among the
/// items, by itself or in a claim, or the set of a claim, and the square name a collision. It does nothing.
pub fn alarm_laws()
    ensures own { (items : List Put) (header : Roots) (moves : List Played) (script w : List ℕ)
        (square : SquareShares) → IsHeaderOf header square →
        TellsPlay items (first_net header moves script) moves w → TellsOwn items square w }
{
    rejection_laws();
}
