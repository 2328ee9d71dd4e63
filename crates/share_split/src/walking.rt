//! Sequences of shares, read share by share.

ghost use Rattle.std.specs.Prelude.{◌≡◌, ◌≤◌, ◌++◌, take, OnOk};
ghost use Rattle.share_split.specs.Walks.{content_in, is_version, first_refusal, surplus_refusal, blob_share_refusal, sequence_after, unit_refusal};
ghost use Rattle.share_split.specs.Steps.{TakesShare};
ghost use Rattle.share_split.specs.declared.walking.Form.TheVariants.{Blobs, Units};

use crate::blobs::split_within;
use crate::fields::{content, is_filled, is_start, signer, size, version};
use crate::{JoinError, SIGNER_SIZE};
use namespace_id::{Namespace, Share};
use std::alloc::{AllocError, Global};
use std::marker::Model;

/// What the shares of a sequence hold: the bytes of a blob, or units, which stand in compact shares.
#[derive(Clone, Copy)]
pub(crate) enum Form {
    Blobs,
    Units,
}

/// Whether a sequence of this form may have this version: 0, and in the shares of blobs 1 too.
fn is_version(form: Form, version: u8) -> bool
    ensures { result ≡ is_version form version }
{
    match form {
        Form::Blobs => version <= 1,
        Form::Units => version == 0,
    }
}

/// Why share i begins no sequence.
fn first_refusal(share: &Share, form: Form, i: u64) -> Option<JoinError>
    ensures { result ≡ first_refusal form i share.now }
{
    if !is_version(form, version(share)) {
        return Some(JoinError::BadVersion(i));
    }
    if !is_start(share) {
        return Some(JoinError::NoStart(i));
    }
    if !is_filled(share, form, size(share) as usize) {
        return Some(JoinError::NonZeroFill(i));
    }
    None
}

/// Why share i can't stand behind the one sequence of units.
fn surplus_refusal(share: &Share, i: u64) -> JoinError
    ensures { result ≡ surplus_refusal i share.now }
{
    if version(share) == 0 {
        JoinError::NoStart(i)
    } else {
        JoinError::BadVersion(i)
    }
}

/// A sequence as far as its shares were read: the number of its first share, its namespace, the
/// version of its shares, its signer, if it has one, its length, and its content so far.
#[derive(Drop)]
pub(crate) struct Open {
    pub first: u64,
    pub namespace: Namespace,
    pub version: u8,
    pub signer: Option<[u8; SIGNER_SIZE]>,
    pub size: u32,
    pub bytes: Vec<u8>,
}

impl Model for Open {
    ghost use Rattle.share_split.specs.Walks.{Sequence};

    ghost Value = { Sequence };

    ghost view = { λ s. record {
      first = s.first;
      name = s.namespace;
      version = s.version;
      signer = s.signer;
      size = s.size;
      content = s.bytes.items;
    } };
}

/// Appends the content of a share to that of its sequence, at most so many bytes.
fn put_content(
    bytes: &mut Vec<u8>,
    share: &Share,
    form: Form,
    most: usize,
) -> Result<(), AllocError>
    ensures { OnOk result
        (bytes.new.items ≡ bytes.old.items ++ take most (content_in form share.now)) }
{
    bytes.extend_from_slice(split_within(content(share, form), most).0)
}

impl Open {
    ghost use Rattle.share_split.specs.Walks.{missing, is_complete, begun_by, extended_by};
    ghost use Rattle.share_split.specs.Walks.{first_refusal, later_refusal};

    /// How many bytes of content are still to come.
    fn missing(&self) -> usize
        ensures { result ≡ missing self.now }
    {
        (self.size as usize).saturating_sub(self.bytes.len())
    }

    /// Whether all content is there.
    pub(crate) fn is_complete(&self) -> bool
        ensures { result ≡ is_complete self.now }
    {
        self.size as usize <= self.bytes.len()
    }

    /// The sequence that share i begins. Memory is taken for the content that is there, and not for
    /// all that the share promises.
    fn begun(alloc: Global, share: &Share, form: Form, i: u64) -> Result<Open, JoinError>
        ensures { TakesShare result
            (first_refusal form i share.now) (begun_by form i share.now) }
    {
        if let Some(refusal) = first_refusal(share, form, i) {
            return Err(refusal);
        }
        let mut bytes = Vec::new(alloc);
        put_content(&mut bytes, share, form, size(share) as usize)?;
        Ok(Open {
            first: i,
            namespace: share.namespace(),
            version: version(share),
            signer: signer(share),
            size: size(share),
            bytes,
        })
    }

    /// Why share i doesn't go on with the sequence.
    fn refusal(&self, share: &Share, form: Form, i: u64) -> Option<JoinError>
        ensures { result ≡ later_refusal form i self.now share.now }
    {
        if version(share) != self.version {
            return Some(JoinError::BadVersion(i));
        }
        if share.namespace() != self.namespace {
            return Some(JoinError::MixedNamespace(i));
        }
        if is_start(share) {
            return Some(JoinError::Short(self.first));
        }
        if !is_filled(share, form, self.missing()) {
            return Some(JoinError::NonZeroFill(i));
        }
        None
    }

    /// The sequence with the content of share i.
    fn extended(self, share: &Share, form: Form, i: u64) -> Result<Open, JoinError>
        ensures { TakesShare result
            (later_refusal form i self share.now) (extended_by form self share.now) }
    {
        if let Some(refusal) = self.refusal(share, form, i) {
            return Err(refusal);
        }
        let mut open = self;
        let missing = open.missing();
        put_content(&mut open.bytes, share, form, missing)?;
        Ok(open)
    }
}

/// The sequence of blobs' shares as far as share i, where one may be open before it.
pub(crate) fn with_blob_share(
    alloc: Global,
    so_far: Option<Open>,
    share: &Share,
    i: u64,
) -> Result<Open, JoinError>
    ensures { TakesShare result
        (blob_share_refusal i so_far share.now) (sequence_after Blobs i so_far share.now) }
{
    match so_far {
        None => Open::begun(alloc, share, Form::Blobs, i),
        Some(open) => open.extended(share, Form::Blobs, i),
    }
}

/// The one sequence of units as far as share i, where it may have begun before.
pub(crate) fn with_unit_share(
    alloc: Global,
    so_far: Option<Open>,
    share: &Share,
    i: u64,
) -> Result<Open, JoinError>
    ensures { TakesShare result
        (unit_refusal i so_far share.now) (sequence_after Units i so_far share.now) }
{
    match so_far {
        None => Open::begun(alloc, share, Form::Units, i),
        Some(open) => {
            if open.is_complete() {
                return Err(surplus_refusal(share, i));
            }
            open.extended(share, Form::Units, i)
        }
    }
}
