//! A follower of one namespace: each refusal, an answer that is taken, and the entry of an earlier
//! height.

ghost use Rattle.std.specs.Prelude.{◌≡◌, ◌≤◌, ◌==◌, slice_index};
ghost use Rattle.blob_feed.specs.Filters.{IsFilter};
ghost use Rattle.blob_feed.specs.Followers.{height_count};

use axis_roots::{Grid, NsAnswer, header_of};
use blob_feed::{Entry, Filter, FollowError, Follower, Taken};
use data_header::Header;
use namespace_id::{NAMESPACE_SIZE, Namespace, NsError, PARITY};
use share_split::Blob;
use square_layout::{Block, Square, lay};
use square_serve::{Held, NsRefusal};
use std::alloc::Global;
use std::process::Abort;

/// Version 0, 26 zero bytes, 1 and this byte: the namespace of a blob.
fn name(last: u8) -> Namespace {
    let mut bytes = [0; NAMESPACE_SIZE];
    bytes[27..].copy_from_slice(&[1, last]);
    Namespace(bytes)
}

/// The square of a block of one blob, the bytes of `abc` under the namespace that ends in 2.
fn square(rt: &impl Abort, alloc: Global) -> Square {
    let blob = Blob {
        namespace: name(2),
        bytes: Vec::from_slice(alloc, b"abc").expect(rt, "there is memory"),
        signer: None,
    };
    let block = Block {
        units: Vec::new(alloc),
        pay_units: Vec::new(alloc),
        blobs: vec![in alloc; blob].expect(rt, "there is memory"),
        width: None,
    };
    lay(alloc, &block).expect(rt, "the block fits")
}

/// The header of this square.
fn header(rt: &impl Abort, alloc: Global) -> Header {
    let grid = Grid::extend(alloc, &square(rt, alloc)).expect(rt, "there is memory");
    let header = header_of(alloc, &grid).expect(rt, "there is memory");
    header.expect(rt, "the namespaces do not fall")
}

/// What a follower answers to an answer at its last height.
fn tell<F: Filter>(
    rt: &impl Abort,
    follower: &mut Follower<F>,
    namespace: Namespace,
    answer: &NsAnswer,
    want: Result<Taken, FollowError>,
    name: &str,
)
    requires { 1 ≤ height_count follower.old }
    ensures { height_count follower.new ≡ height_count follower.old }
{
    assert!(rt; follower.answer(&namespace, answer) == want, "{name}");
}

/// What a follower of the namespace that ends in 2 answers at its last height: to this whole answer, and to one without an
/// entry.
fn tell_all<F: Filter>(
    rt: &impl Abort,
    follower: &mut Follower<F>,
    whole: &NsAnswer,
    empty: &NsAnswer,
)
    requires { 1 ≤ height_count follower.old }
    ensures { height_count follower.new ≡ height_count follower.old }
{
    let no_blob = Err(FollowError::NotBlob(NsError::Version));
    tell(rt, follower, PARITY, whole, no_blob, "parity");
    let unwanted = Err(FollowError::Unwanted);
    tell(rt, follower, name(3), whole, unwanted, "another");
    let refused = Err(FollowError::Refused(NsRefusal::Rows(0)));
    tell(rt, follower, name(2), empty, refused, "no entry");
    let taken = Ok(Taken::Blobs(1));
    tell(rt, follower, name(2), whole, taken, "a blob");
    let twice = Err(FollowError::Twice);
    tell(rt, follower, name(2), whole, twice, "again");
}

/// Whether the bytes of `abc` are the one blob of a height.
fn has_entered<F: Filter>(follower: &Follower<F>, height: u32) -> bool {
    let Some(Entry::Blobs(blobs)) = follower.entry(height, &name(2)) else {
        return false;
    };
    let [blob] = blobs.as_slice() else {
        return false;
    };
    blob.bytes.as_slice() == b"abc".as_slice()
}

/// The whole answer for the namespace that ends in 2, and one without an entry.
fn answers(rt: &impl Abort, alloc: Global) -> (NsAnswer, NsAnswer) {
    let mut held = Held::of(alloc, square(rt, alloc)).expect(rt, "there is memory");
    let whole = held.namespace(alloc, &name(2));
    let entries = Vec::new(alloc);
    (whole.expect(rt, "there is memory"), NsAnswer { entries })
}

/// How a follower fares that wants the namespace that ends in 2, and not the one that ends in 3.
fn follows<F: Filter>(rt: &impl Abort, alloc: Global, filter: F)
    requires { IsFilter F.can_ask F.answers filter }
{
    let (whole, empty) = answers(rt, alloc);
    let mut follower = Follower::new(alloc, filter);
    assert!(rt; follower.entry(0, &name(2)).is_none(), "no height");
    follower
        .header(header(rt, alloc))
        .expect(rt, "there is memory");
    tell_all(rt, &mut follower, &whole, &empty);
    follower
        .header(header(rt, alloc))
        .expect(rt, "there is memory");
    assert!(rt; follower.heights() == 2, "two heights");
    assert!(rt; follower.entry(1, &name(2)).is_none(), "nothing yet");
    assert!(rt; has_entered(&follower, 0), "the blob");
}

#[test]
fn one_namespace(rt: HostRuntime) {
    follows(
        &rt,
        rt.alloc(),
        |namespace: &Namespace| -> bool
            ensures { result ≡ (slice_index namespace.now.0 28 == 2) }
        { namespace.0[28] == 2 },
    );
}
