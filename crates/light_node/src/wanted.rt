//! Cells that a picker names.

ghost use Rattle.std.specs.Prelude.{◌≡◌, ◌+◌, ◌^◌, ◌<◌, ◌≤◌, ℕ, OnOk, OnErr};
ghost use Rattle.light_node.specs.Nodes.{ArePicked};

use crate::Picker;
use indexmap::IndexSet;
use namespace_id::{Cell, NoMemory};

/// Adds the picker's cells for `count` numbers from `first` on, where they aren't there yet.
///
/// It refuses only where there is no memory, and then the set is as it was.
pub(crate) fn want<F: Picker>(
    pick: &F,
    first: u32,
    count: u32,
    wanted: &mut IndexSet<Cell>,
) -> Result<(), NoMemory>
    requires numbers { first + count < 2 ^ 32 }
    requires picker { (number : ℕ) → first ≤ number → number < first + count →
        F.can_pick pick.now number }
    ensures picked { OnOk result
        (ArePicked F.picks pick.now first count wanted.old.keys wanted.new.keys) }
    ensures unchanged { OnErr result (wanted.new.keys ≡ wanted.old.keys) }
{
    let len = wanted.len();
    for number in first..first + count {
        let cell = pick.pick(number);
        let Ok(_) = wanted.insert(cell) else {
            wanted.truncate(len);
            return Err(NoMemory);
        };
    }
    Ok(())
}
