//! The heights of a run of `follow`, one after another.

ghost use Rattle.std.specs.Prelude.{◌≡◌, ◌+◌, ◌<◌, ◌≤◌, ◌^◌, ◌∷◌, [], List, None, OnOk, length};
ghost use Rattle.std.specs.List.{AllByRecursion};
ghost use Rattle.std.specs.Option.{option_map, option_or};
ghost use Rattle.namespace_id.specs.declared.namespaces.Namespace.{Namespace as Name};
ghost use Rattle.blob_feed.specs.Feeds.{Item, Height, headed, answered, answers_ahead, heights_of};
ghost use Rattle.da_following.specs.Follow.{RunFeed, places_at, IsFeedText, HasFeedMore};
ghost use Rattle.da_following.specs.Heights.{said, first_said, said_at, AreSaid, IsOnWay, begun};

use crate::feed_lines::{FeedText, append, place_text, text_of};
use axis_roots::NsAnswer;
use data_header::Header;
use namespace_id::{Namespace, NoMemory};
use std::alloc::Global;
use std::collections::BTreeMap;

/// The height under way: its header, and how the lines go on of each namespace for which an answer was
/// complete.
#[derive(Drop)]
pub struct UnderWay {
    header: Header,
    texts: BTreeMap<Namespace, Vec<u8>>,
}

/// The lines of the heights that are behind, how many these are, and the height under way.
#[derive(Drop)]
pub struct Way {
    pub(crate) told: FeedText,
    number: u64,
    height: Option<UnderWay>,
}

impl UnderWay {
    /// Takes an answer: its line is kept where it is the first complete one for its namespace.
    fn take(&mut self, alloc: Global, name: &Namespace, answer: &NsAnswer) -> Result<(), NoMemory>
        ensures header { self.new.header ≡ self.old.header }
        ensures said { OnOk result ((other : Name) → said_at self.new other ≡
            option_or (said_at self.old other) (first_said self.old.header other
            (record { name = name.now; answer = answer.now } ∷ []))) }
    {
        if self.texts.contains_key(name) {
            return Ok(());
        }
        let Some(text) = text_of(alloc, &self.header, name, answer)? else {
            return Ok(());
        };
        match self.texts.insert(*name, text) {
            Ok(_before) => Ok(()),
            Err(_) => Err(NoMemory),
        }
    }
}

/// Adds the lines of a namespace at a height. There are no more lines that say that there is nothing
/// than bytes.
fn put_place(
    height: &UnderWay,
    number: u64,
    name: &Namespace,
    told: &mut FeedText,
) -> Result<(), NoMemory>
    requires { told.old.missing ≤ length told.old.text.items }
    ensures more { OnOk result ((feed : RunFeed) →
        said_at height.now name.now ≡ option_map said (feed number name.now) →
        HasFeedMore feed ((number, name.now) ∷ []) told.old told.new) }
    ensures fits { OnOk result (told.new.missing ≤ length told.new.text.items) }
{
    append(&mut told.text, place_text(number, name).as_bytes())?;
    match height.texts.get(name) {
        Some(text) => append(&mut told.text, text),
        None => {
            append(&mut told.text, b" missing\n")?;
            told.missing += 1;
            Ok(())
        }
    }
}

/// Adds the lines of namespaces at a height, in their order.
fn put_height(
    height: &UnderWay,
    number: u64,
    names: &[Namespace],
    told: &mut FeedText,
) -> Result<(), NoMemory>
    requires { told.old.missing ≤ length told.old.text.items }
    ensures more { OnOk result ((feed : RunFeed) → AreSaid feed number height.now names.now →
        HasFeedMore feed (places_at names.now number) told.old told.new) }
    ensures fits { OnOk result (told.new.missing ≤ length told.new.text.items) }
{
    let mut rest = names;
    while let Some((name, after)) = rest.split_first() {
        put_place(height, number, name, told)?;
        rest = after;
    }
    Ok(())
}

impl Way {
    /// No heights. It takes no memory.
    pub(crate) fn new(alloc: Global) -> Way
        ensures way { (names : List Name) (items : List Item) →
            IsOnWay names (heights_of items) result items }
        ensures count { begun result ≡ 0 }
        ensures fits { result.told.missing ≤ length result.told.text.items }
    {
        Way {
            told: FeedText {
                text: Vec::new(alloc),
                missing: 0,
            },
            number: 0,
            height: None,
        }
    }

    /// Tells the height under way, if there is one. It is behind then.
    pub(crate) fn close(&mut self, names: &[Namespace]) -> Result<(), NoMemory>
        requires count { begun self.old < 2 ^ 64 }
        requires fits { self.old.told.missing ≤ length self.old.told.text.items }
        ensures way { OnOk result ((all : List Height) (rest : List Item) → answers_ahead rest ≡ [] →
            IsOnWay names.now all self.old rest → IsOnWay names.now all self.new rest) }
        ensures none { OnOk result (self.new.height ≡ None) }
        ensures count { OnOk result (begun self.new ≡ begun self.old) }
        ensures fits { OnOk result (self.new.told.missing ≤ length self.new.told.text.items) }
    {
        let Some(height) = self.height.take() else {
            return Ok(());
        };
        put_height(&height, self.number, names, &mut self.told)?;
        self.number += 1;
        Ok(())
    }

    /// Takes the header of the next height, and tells the one before it.
    pub(crate) fn header(
        &mut self,
        alloc: Global,
        header: Header,
        names: &[Namespace],
    ) -> Result<(), NoMemory>
        requires count { begun self.old < 2 ^ 64 }
        requires fits { self.old.told.missing ≤ length self.old.told.text.items }
        ensures way { OnOk result ((all : List Height) (later : List Item) →
            IsOnWay names.now all self.old (headed header ∷ later) →
            IsOnWay names.now all self.new later) }
        ensures count { OnOk result (begun self.new ≡ begun self.old + 1) }
        ensures fits { OnOk result (self.new.told.missing ≤ length self.new.told.text.items) }
    {
        self.close(names)?;
        self.height = Some(UnderWay {
            header,
            texts: BTreeMap::new(alloc),
        });
        Ok(())
    }

    /// Takes an answer at the height under way. In front of the first header it counts for nothing.
    pub(crate) fn answer(
        &mut self,
        alloc: Global,
        name: &Namespace,
        answer: &NsAnswer,
    ) -> Result<(), NoMemory>
        ensures way { OnOk result ((names : List Name) (all : List Height) (later : List Item) →
            IsOnWay names all self.old
            (answered (record { name = name.now; answer = answer.now }) ∷ later) →
            IsOnWay names all self.new later) }
        ensures count { begun self.new ≡ begun self.old }
        ensures told { self.new.told ≡ self.old.told }
    {
        let Some(height) = &mut self.height else {
            return Ok(());
        };
        height.take(alloc, name, answer)
    }
}
