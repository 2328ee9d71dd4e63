//! Places that are taken out of a list one after another. Only the taken places are kept, in order:
//! they tell where in the whole list stands what is left.

ghost use Rattle.std.specs.Prelude.{◌≡◌, ◌<◌, ◌≤◌, ◌+◌, ◌^◌, length, IfOk, OnOk};
ghost use Rattle.sampling.specs.Taken.{AscendFrom, passed, whole_place, with_taken};

use namespace_id::NoMemory;

/// How many taken places come before what stands at a place of the rest. It is looked for by halves.
fn passed(taken: &[u32], place: u32) -> usize
    requires ascend { AscendFrom 0 taken.now }
    requires bound { place + length taken.now < 2 ^ 32 }
    ensures value { result ≡ passed taken.now place }
    ensures bound { result ≤ length taken.now }
{
    let mut low = 0;
    let mut high = taken.len();
    while low < high {
        let middle = low + (high - low) / 2;
        if taken[middle] <= place + middle as u32 {
            low = middle + 1;
        } else {
            high = middle;
        }
    }
    low
}

/// Takes out what stands at a place of the rest, and says its place in the whole list.
pub(crate) fn take_out(taken: &mut Vec<u32>, place: u32) -> Result<u32, NoMemory>
    requires ascend { AscendFrom 0 taken.old.items }
    requires bound { place + length taken.old.items < 2 ^ 32 }
    ensures place { IfOk result (λ whole. whole ≡ whole_place taken.old.items place) }
    ensures bound { IfOk result (λ whole. whole ≤ place + length taken.old.items) }
    ensures taken { OnOk result (taken.new.items ≡ with_taken taken.old.items place) }
    ensures one { OnOk result (length taken.new.items ≡ length taken.old.items + 1) }
    ensures ascend { OnOk result (AscendFrom 0 taken.new.items) }
{
    let before = passed(taken, place);
    let whole = place + before as u32;
    let Ok(()) = taken.insert(before, whole) else {
        return Err(NoMemory);
    };
    Ok(whole)
}
