//! The lines of a namespace at a height.

ghost use Rattle.std.specs.Prelude.{◌≡◌, ◌++◌, ◌∷◌, [], OnOk, IfOk};
ghost use Rattle.std.specs.List.{flat_map};
ghost use Rattle.std.specs.Option.{option_map};
ghost use Rattle.sha2.specs.Sha256.{sha256};
ghost use Rattle.blob_feed.specs.Feeds.{read_of};
ghost use Rattle.da_following.specs.Follow.{blob_line, place_text, count_text, fault_text};
ghost use Rattle.da_following.specs.Heights.{said, first_said};

use axis_roots::NsAnswer;
use blob_feed::{Entry, ReadError, read_answer};
use da_status::{Line, around, join_number, join_share};
use data_header::Header;
use namespace_id::{Namespace, NoMemory};
use sha2::{Digest as _, Sha256};
use share_split::{Blob, JoinError};
use std::alloc::Global;

/// Lines, and how many of them say that there is nothing.
#[derive(Drop)]
pub struct FeedText {
    pub(crate) text: Vec<u8>,
    pub(crate) missing: u64,
}

/// Appends bytes to a text.
pub(crate) fn append(text: &mut Vec<u8>, part: &[u8]) -> Result<(), NoMemory>
    ensures { OnOk result (text.new.items ≡ text.old.items ++ part.now) }
{
    text.extend_from_slice(part)?;
    Ok(())
}

/// How the lines of a namespace at a height begin.
pub fn place_text(number: u64, name: &Namespace) -> Line
    ensures { result ≡ place_text number name.now }
{
    let mut digits = [0u8; 58];
    let _written = hex::encode_to_slice(&name.0, &mut digits);
    let mut line = Line::new();
    around(&mut line, b"height ", number, b" namespace ");
    line.put(&digits);
    line
}

/// The SHA-256 value of bytes.
fn hash_of(bytes: &[u8]) -> [u8; 32]
    ensures { result ≡ sha256 bytes.now }
{
    let mut hasher = Sha256::new();
    hasher.update(bytes);
    hasher.finalize()
}

/// The line of a blob.
fn blob_line(blob: &Blob) -> Line
    ensures { result ≡ blob_line blob.now }
{
    let mut digits = [0u8; 64];
    let _written = hex::encode_to_slice(&hash_of(&blob.bytes), &mut digits);
    let mut line = Line::new();
    around(&mut line, b"blob ", blob.bytes.len() as u64, b" ");
    line.put(&digits);
    line.put(b"\n");
    line
}

/// The number of blobs, at the end of a line.
fn count_text(count: u64) -> Line
    ensures { result ≡ count_text count }
{
    let mut line = Line::new();
    around(&mut line, b" blobs ", count, b"\n");
    line
}

/// The fault of shares, at the end of a line.
fn fault_text(why: JoinError) -> Line
    ensures { result ≡ fault_text why }
{
    let mut line = Line::new();
    around(&mut line, b" malformed ", join_number(why), b" ");
    around(&mut line, b"", join_share(why), b"\n");
    line
}

/// Appends the lines of blobs, in their order.
fn put_blobs(blobs: &[Blob], text: &mut Vec<u8>) -> Result<(), NoMemory>
    ensures { OnOk result (text.new.items ≡ text.old.items ++ flat_map blob_line blobs.now) }
{
    let mut rest = blobs;
    while let Some((blob, after)) = rest.split_first() {
        append(text, blob_line(blob).as_bytes())?;
        rest = after;
    }
    Ok(())
}

/// Appends how the lines of a namespace at a height go on, by the entry that there is.
fn put_entry(entry: &Entry, text: &mut Vec<u8>) -> Result<(), NoMemory>
    ensures { OnOk result (text.new.items ≡ text.old.items ++ said (read_of entry.now)) }
{
    match entry {
        Entry::Blobs(blobs) => {
            append(text, count_text(blobs.len() as u64).as_bytes())?;
            put_blobs(blobs, text)
        }
        Entry::Malformed(why) => append(text, fault_text(*why).as_bytes()),
    }
}

/// How the lines of a namespace at a height go on, by one answer under its header; none where the
/// answer isn't complete. The blobs are dropped.
pub fn text_of(
    alloc: Global,
    header: &Header,
    name: &Namespace,
    answer: &NsAnswer,
) -> Result<Option<Vec<u8>>, NoMemory>
    ensures { IfOk result (λ text. option_map (λ t. t.items) text ≡ first_said header.now name.now
        (record { name = name.now; answer = answer.now } ∷ [])) }
{
    let entry = match read_answer(alloc, header, name, answer) {
        Ok(entry) => entry,
        Err(ReadError::Refused(_)) => return Ok(None),
        Err(ReadError::NoMemory) => return Err(NoMemory),
    };
    let mut text = Vec::new(alloc);
    put_entry(&entry, &mut text)?;
    Ok(Some(text))
}
