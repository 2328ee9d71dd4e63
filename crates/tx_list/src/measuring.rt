//! What the blobs ask for that payments state, each of which is read once, however often it is stated.

ghost use Rattle.std.specs.Prelude.{◌≡◌, ◌<◌, ◌&&◌, ◌+◌, ◌-◌, ◌^◌, ◌∷◌, length, min, map, not, is_some, IfOk, OnOk};
ghost use Rattle.namespace_id.specs.Names.{namespace_refusal};
ghost use Rattle.namespace_id.specs.Sizes.{namespace_size};
ghost use Rattle.square_layout.specs.Refusals.{most_named};
ghost use Rattle.tx_list.specs.Payments.{blobs_of};
ghost use Rattle.tx_list.specs.Unwrapped.{wrapped_tx};
ghost use Rattle.tx_list.specs.BackRefusals.{blobs_at, places_refusal, payment_at, wrapper_refusal, wrappers_refusal, AnswersBack};
ghost use Rattle.tx_list.specs.Measures.{is_named_again, measure_of, measure_at, AreKnown, HaveLengths};

use crate::BackError;
use crate::finding::blob_at;
use crate::unwrapping::unwrapped;
use namespace_id::{NAMESPACE_SIZE, Namespace, NoMemory, Share, namespace_law};
use share_split::{Blob, Unit};
use square_layout::plan_bound;
use std::alloc::Global;

/// What blobs ask for: as many shares as they may take at most, and whether each has a namespace of a blob, of which its payment
/// spells the id alone.
#[derive(Clone, Copy)]
pub(crate) struct Measure {
    pub(crate) bound: u64,
    pub(crate) named: bool,
}

/// Whether an id, behind the version 0, is the namespace of a blob.
fn is_blob_id(id: &[u8]) -> bool
    requires { length id.now ≡ namespace_size - 1 }
    ensures { result ≡ not (is_some (namespace_refusal (0 ∷ id.now))) }
{
    let mut name = [0; NAMESPACE_SIZE];
    name[1..].copy_from_slice(id);
    Namespace::blob(&name).is_ok()
}

/// Whether the namespace of a blob is one of a blob as its payment spells it.
fn is_named_again(blob: &Blob) -> bool
    ensures { result ≡ is_named_again blob.now }
{
    namespace_law(&blob.namespace);
    let (_version, id) = blob.namespace.0.split_at(1);
    is_blob_id(id)
}

/// What the blob asks for that begins at a place, if one does.
fn measured(alloc: Global, shares: &[Share], place: u32) -> Result<Option<Measure>, NoMemory>
    ensures { IfOk result (λ found. found ≡ measure_at shares.now place) }
{
    let Some(blob) = blob_at(alloc, shares, place)? else {
        return Ok(None);
    };
    Ok(Some(Measure {
        bound: plan_bound(0, &[&blob]),
        named: is_named_again(&blob),
    }))
}

/// What it asks for, which is written to what is known.
fn measure_at(
    alloc: Global,
    shares: &[Share],
    place: u32,
    known: &mut [Option<Measure>],
) -> Result<Option<Measure>, NoMemory>
    requires known { AreKnown shares.now known.old }
    ensures found { IfOk result (λ found. found ≡ measure_at shares.now place) }
    ensures known { AreKnown shares.now known.new }
{
    let at = place as usize;
    if at >= known.len() {
        return measured(alloc, shares, place);
    }
    if let Some(measure) = known[at] {
        return Ok(Some(measure));
    }
    let found = measured(alloc, shares, place)?;
    known[at] = found;
    Ok(found)
}

/// What some blobs ask for together with others.
fn joined(some: Measure, others: Measure) -> Measure
    ensures bound { result.bound ≡ min (some.bound + others.bound) most_named }
    ensures named { result.named ≡ (some.named && others.named) }
{
    Measure {
        bound: some.bound.saturating_add(others.bound),
        named: some.named && others.named,
    }
}

/// What the blobs at the places of payment i ask for.
fn measure_places(
    alloc: Global,
    shares: &[Share],
    i: u64,
    places: &[u32],
    known: &mut [Option<Measure>],
) -> Result<Measure, BackError>
    requires known { AreKnown shares.now known.old }
    ensures first { AnswersBack result (places_refusal i 0 shares.now places.now) }
    ensures measure { IfOk result (λ measure. measure ≡ measure_of (blobs_at shares.now places.now)) }
    ensures known { AreKnown shares.now known.new }
{
    let mut all = Measure {
        bound: 0,
        named: true,
    };
    for (j, place) in places.iter().enumerate() {
        let Ok(found) = measure_at(alloc, shares, *place, known) else {
            return Err(BackError::NoMemory);
        };
        let Some(measure) = found else {
            return Err(BackError::Index(i, j as u64));
        };
        all = joined(all, measure);
    }
    Ok(all)
}

/// What the blobs of payment i ask for, which this unit of the second front is.
fn measure_payment(
    alloc: Global,
    shares: &[Share],
    i: u64,
    unit: &Unit,
    known: &mut [Option<Measure>],
) -> Result<Measure, BackError>
    requires known { AreKnown shares.now known.old }
    ensures first { AnswersBack result (wrapper_refusal i shares.now unit.now) }
    ensures measure { IfOk result (λ measure.
        measure ≡ measure_of (payment_at shares.now unit.now).blobs) }
    ensures counted { OnOk result (length (wrapped_tx unit.now) < 2 ^ 64) }
    ensures known { AreKnown shares.now known.new }
{
    let Ok(found) = unwrapped(alloc, &unit.bytes) else {
        return Err(BackError::NoMemory);
    };
    let Some(wrapper) = found else {
        return Err(BackError::Wrapper(i));
    };
    measure_places(alloc, shares, i, &wrapper.places, known)
}

/// What the blobs of all payments ask for, which these units of the second front are.
fn measure_all(
    alloc: Global,
    shares: &[Share],
    units: &[Unit],
    known: &mut [Option<Measure>],
) -> Result<Measure, BackError>
    requires known { AreKnown shares.now known.old }
    ensures first { AnswersBack result (wrappers_refusal 0 shares.now units.now) }
    ensures measure { IfOk result (λ measure.
        measure ≡ measure_of (blobs_of (map (payment_at shares.now) units.now))) }
    ensures counted { OnOk result (HaveLengths units.now) }
{
    let mut all = Measure {
        bound: 0,
        named: true,
    };
    for (i, unit) in units.iter().enumerate() {
        let measure = measure_payment(alloc, shares, i as u64, unit, known)?;
        all = joined(all, measure);
    }
    Ok(all)
}

/// What the blobs of all payments ask for, which these units of the second front are. Each blob is read once, and none is kept.
pub(crate) fn measure_of(
    alloc: Global,
    shares: &[Share],
    units: &[Unit],
) -> Result<Measure, BackError>
    ensures first { AnswersBack result (wrappers_refusal 0 shares.now units.now) }
    ensures measure { IfOk result (λ measure.
        measure ≡ measure_of (blobs_of (map (payment_at shares.now) units.now))) }
    ensures counted { OnOk result (HaveLengths units.now) }
{
    let Ok(mut known) = vec![in alloc; None; shares.len()] else {
        return Err(BackError::NoMemory);
    };
    measure_all(alloc, shares, units, &mut known)
}
