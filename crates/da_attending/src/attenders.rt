//! Attenders: what is known of wanted namespaces, and what is said of it.

ghost use Rattle.std.specs.Prelude.{◌≡◌, ◌≤◌, [], List, None, Some, true, false, min, vec_capacity, IfOk, ⊤};
ghost use Rattle.std.specs.Option.{option_map};
ghost use Rattle.namespace_id.specs.declared.namespaces.Namespace.{Namespace as Name};
ghost use Rattle.da_io.specs.Faults.{max_count};
ghost use Rattle.blob_feed.specs.Feeds.{Item, headed, answered};
ghost use Rattle.frame_payloads.specs.Payloads.{max_payload};
ghost use Rattle.da_attending.specs.Attended.{height_missing, count_missing, most_missing_lines, RepliesAttending, RefusesAttending, EndsAttending};
ghost use Rattle.da_attending.specs.Attenders.{is_listed, IsFreshAttender, AttenderStands, HasTaken, HasHeard, new_text};

use crate::handed::{Handed, item_in};
use crate::saying::{put_known, put_missing};
use axis_roots::NsAnswer;
use da_following::{feed_status, text_of};
use da_status::Status;
use da_talk::{Talker, Turn};
use da_wire::RawFrame;
use data_header::Header;
use namespace_id::{Namespace, NoMemory};
use std::alloc::Global;
use std::collections::BTreeSet;
use std::marker::Model;

/// What is known of wanted namespaces at the height under way: it replies to the headers and answers of a talk.
///
/// docs/FORMATS.md, "Talks".
#[derive(Drop)]
pub struct Attender<'a> {
    alloc: Global,
    names: &'a [Namespace],
    // the same, to look one up
    wanted: BTreeSet<Namespace>,
    // those of which something is had at the height under way
    known: BTreeSet<Namespace>,
    header: Option<Header>,
    heights: u64,
    // at how many places of the heights behind nothing is had
    missing: u64,
    status: Status,
}

impl<'a> Model for Attender<'a> {
    ghost use Rattle.std.specs.Prelude.{◌≡◌};
    ghost use Rattle.namespace_id.specs.declared.namespaces.Namespace.{Namespace as Name};
    ghost use Rattle.da_attending.specs.Attenders.{AttendParts, is_listed};

    ghost Value = { AttendParts };

    ghost view = { λ a. record {
      names = a.names.now;
      known = a.known.keys;
      header = a.header;
      heights = a.heights;
      missing = a.missing;
      status = a.status;
    } };

    ghost invariant = { λ a. (name : Name) → is_listed a.wanted.keys name ≡ is_listed a.names.now name };
}

/// The set of namespaces.
fn set_of(alloc: Global, names: &[Namespace]) -> Result<BTreeSet<Namespace>, NoMemory>
    ensures { IfOk result (λ set. (name : Name) → is_listed set.keys name ≡ is_listed names.now name) }
{
    let mut set = BTreeSet::new(alloc);
    let mut rest = names;
    while let Some((name, after)) = rest.split_first() {
        match set.insert(*name) {
            Ok(_new) => rest = after,
            Err(_) => return Err(NoMemory),
        }
    }
    Ok(set)
}

impl<'a> Attender<'a> {
    /// An attender to which nothing was said yet. It refuses only where there is no memory.
    pub fn new(alloc: Global, names: &'a [Namespace]) -> Result<Attender<'a>, NoMemory>
        ensures names { IfOk result (λ attender. attender.names ≡ names.now) }
        ensures fresh { IfOk result IsFreshAttender }
    {
        let wanted = set_of(alloc, names)?;
        Ok(Attender {
            alloc,
            names,
            wanted,
            known: BTreeSet::new(alloc),
            header: None,
            heights: 0,
            missing: 0,
            status: Status::Done,
        })
    }

    /// The status that goes with the last words of its talk.
    pub fn status(&self) -> Status
        ensures { result ≡ self.now.status }
    {
        self.status
    }

    /// Writes the missing lines of the height under way, if one began, into an empty text, and answers at how many places of all
    /// heights nothing is had. The count stops at 2^64 - 1.
    fn put_height(&self, text: &mut Vec<u8>) -> u64
        requires empty { text.old.items ≡ [] }
        requires capacity { most_missing_lines self.now.names ≤ vec_capacity text.old }
        ensures written { (items : List Item) → AttenderStands self.now items →
            text.new.items ≡ height_missing self.now.names items }
        ensures counted { (items : List Item) → AttenderStands self.now items →
            result ≡ min (count_missing self.now.names items) max_count }
        ensures capacity { vec_capacity text.old ≤ vec_capacity text.new }
    {
        let Some(_header) = &self.header else {
            return self.missing;
        };
        let number = self.heights.saturating_sub(1);
        let count = put_missing(text, number, self.names, &self.known);
        self.missing.saturating_add(count)
    }

    /// Takes the header of the next height, and writes the missing lines of the one before it.
    fn take_header(&mut self, header: Header, text: &mut Vec<u8>)
        requires empty { text.old.items ≡ [] }
        requires capacity { most_missing_lines self.old.names ≤ vec_capacity text.old }
        ensures heard { HasHeard self.old self.new (headed header) text.new.items }
        ensures capacity { vec_capacity text.old ≤ vec_capacity text.new }
    {
        self.missing = self.put_height(text);
        self.header = Some(header);
        self.known = BTreeSet::new(self.alloc);
        self.heights = self.heights.saturating_add(1);
    }

    /// How the lines of a namespace go on of which something comes to be had by an answer under a header. An answer for a namespace
    /// that isn't wanted, or of which something is had already, isn't verified.
    fn news(
        &self,
        header: &Header,
        name: &Namespace,
        answer: &NsAnswer,
    ) -> Result<Option<Vec<u8>>, NoMemory>
        ensures { IfOk result (λ text. option_map (λ t. t.items) text ≡ new_text self.now header.now
            (record { name = name.now; answer = answer.now })) }
    {
        if !self.wanted.contains(name) || self.known.contains(name) {
            return Ok(None);
        }
        text_of(self.alloc, header, name, answer)
    }

    /// Takes an answer, and writes the lines of what comes to be had by it. Answers whether it fits: a header came before.
    fn take_answer(
        &mut self,
        name: &Namespace,
        answer: &NsAnswer,
        text: &mut Vec<u8>,
    ) -> Result<bool, NoMemory>
        requires empty { text.old.items ≡ [] }
        ensures heard { IfOk result (λ fit. fit ≡ true →
            HasHeard self.old self.new (answered (record { name = name.now; answer = answer.now })) text.new.items) }
        ensures unfit { IfOk result (λ fit. fit ≡ false → self.old.header ≡ None) }
        ensures names { self.new.names ≡ self.old.names }
        ensures capacity { vec_capacity text.old ≤ vec_capacity text.new }
    {
        let Some(header) = &self.header else {
            return Ok(false);
        };
        let Some(lines) = self.news(header, name, answer)? else {
            return Ok(true);
        };
        put_known(text, self.heights.saturating_sub(1), name, &lines)?;
        match self.known.insert(*name) {
            Ok(_new) => Ok(true),
            Err(_) => Err(NoMemory),
        }
    }
}

impl<'a> Talker for Attender<'a> {
    ghost is_fresh = { λ a. IsFreshAttender a };

    ghost led = { λ first now frames. HasTaken first now frames };

    ghost is_over = { λ a. false };

    ghost longest = { λ a. max_payload };

    ghost most = { λ a. most_missing_lines a.names };

    ghost takes_memory = { λ a. ⊤ };

    ghost begins = { λ first text. text ≡ [] };

    ghost replies = { λ first frames frame text. RepliesAttending first.names frames frame text };

    ghost refuses = { λ first frames frame. RefusesAttending frames frame };

    ghost decides = { λ first now frames text. ⊥ };

    ghost ends = { λ first now frames text. EndsAttending first.names frames text now.status };

    fn begin(&mut self, _text: &mut Vec<u8>) {}

    fn answer(
        &mut self,
        _number: u64,
        frame: Option<RawFrame<'_>>,
        text: &mut Vec<u8>,
    ) -> Result<Turn, NoMemory> {
        match item_in(self.alloc, frame)? {
            Some(Handed::Header(header)) => {
                self.take_header(header, text);
                Ok(Turn::GoesOn)
            }
            Some(Handed::Answer(name, answer)) => {
                if self.take_answer(&name, &answer, text)? {
                    Ok(Turn::GoesOn)
                } else {
                    Ok(Turn::Unfit)
                }
            }
            None => Ok(Turn::Unfit),
        }
    }

    fn close(&mut self, text: &mut Vec<u8>) {
        let missing = self.put_height(text);
        self.status = feed_status(missing);
    }

    ghost takes_none = { λ first now frames led takes. tt };
}
