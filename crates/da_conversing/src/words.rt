//! Words, and whether they are a command that stays.

ghost use Rattle.std.specs.Prelude.{◌≡◌, ◌<◌, [], get_or, length, IfOk};
ghost use Rattle.std.specs.String.{string_bytes};
ghost use Rattle.da_words.specs.Values.{is_command};
ghost use Rattle.da_words.specs.Words.{words_of};
ghost use Rattle.da_conversing.specs.Words.{is_talk_word, is_talk, has_talk, key_given, is_key_input, is_once, watch_of, has_watch, watch_call, talk_file, key_file_name};

use da_cli::{is_key_name, key_in, key_name, number_in};
use da_io::{NoMemory, is_standard_input};
use std::alloc::Global;

/// Where the key of a watch comes from.
#[derive(Clone, Copy)]
pub(crate) enum KeyWord {
    /// The word is the key.
    Key([u8; 32]),
    /// The word names a file of it.
    Named,
}

/// What KEY and COUNT of a watch say.
#[derive(Clone, Copy)]
pub(crate) struct Watch {
    pub(crate) key: KeyWord,
    pub(crate) count: u32,
}

/// Whether a word is that of a command that stays.
fn is_talk_word(word: &str) -> bool
    ensures { result ≡ is_talk_word word.now }
{
    word == "hold" || word == "gather" || word == "watch" || word == "attend"
}

/// Whether the first of some words is that of a command that stays, for which `converse` is called and not `run`.
///
/// docs/COMMANDS.md, "Words".
pub fn is_talk(words: &[String]) -> bool
    ensures { result ≡ is_talk (words_of words.now) }
{
    match words.first() {
        Some(word) => is_talk_word(word),
        None => false,
    }
}

/// Whether these are the word of a command and so many words after it.
fn is_command(words: &[String], name: &str, count: usize) -> bool
    ensures { result ≡ is_command (words_of words.now) name.now count }
{
    match words.split_first() {
        Some((word, rest)) => word.as_str() == name && rest.len() == count,
        None => false,
    }
}

/// Whether words are this one, the name of a file and TALK, of which one at most is the standard input.
pub(crate) fn has_talk(word: &str, words: &[String]) -> bool
    ensures { result ≡ has_talk word.now (words_of words.now) }
{
    if !is_command(words, word, 2) {
        return false;
    }
    !(is_standard_input(&words[1]) && is_standard_input(&words[2]))
}

/// The key that KEY is, or that it names a file of one.
fn key_word(word: &str) -> Option<KeyWord>
    ensures { result ≡ key_given word.now }
{
    if is_key_name(word) {
        return Some(KeyWord::Named);
    }
    Some(KeyWord::Key(key_in(word)?))
}

/// The key and the count that KEY and COUNT are.
fn watch_of(key: &str, count: &str) -> Option<Watch>
    ensures { result ≡ watch_of key.now count.now }
{
    let key = key_word(key)?;
    let count = number_in(count, u64::from(u32::MAX))? as u32;
    Some(Watch { key, count })
}

/// Whether KEY names the standard input.
fn is_key_input(key: &str) -> bool
    ensures { result ≡ is_key_input key.now }
{
    is_key_name(key) && is_standard_input(key_name(key))
}

/// Whether of HEADER, the file that KEY names and TALK one at most is the standard input.
fn is_once(header: &str, key: &str, talk: &str) -> bool
    ensures { result ≡ is_once header.now key.now talk.now }
{
    let header = is_standard_input(header);
    let talk = is_standard_input(talk);
    if is_key_input(key) {
        !header && !talk
    } else {
        !(header && talk)
    }
}

/// Whether words are `watch` and four more, and of their files one at most is the standard input.
fn has_watch(words: &[String]) -> bool
    ensures { result ≡ has_watch (words_of words.now) }
{
    if !is_command(words, "watch", 4) {
        return false;
    }
    is_once(&words[1], &words[2], &words[4])
}

/// The key and the count of words that are `watch HEADER KEY COUNT TALK`.
pub(crate) fn watch_call(words: &[String]) -> Option<Watch>
    ensures { result ≡ watch_call (words_of words.now) }
{
    if !has_watch(words) {
        return None;
    }
    watch_of(&words[2], &words[3])
}

/// The number of TALK among the files of a watch.
pub(crate) fn talk_file(key: KeyWord) -> u32
    ensures { result ≡ talk_file key }
{
    match key {
        KeyWord::Key(_) => 1,
        KeyWord::Named => 2,
    }
}

/// The word at a place, once more.
pub(crate) fn word_at(alloc: Global, words: &[String], at: usize) -> Result<String, NoMemory>
    requires { at < length words.now }
    ensures { IfOk result (λ word. string_bytes word ≡ get_or (words_of words.now) at []) }
{
    match words[at].clone() {
        Ok(word) => Ok(word),
        Err(_) => Err(NoMemory),
    }
}

/// The name of the file that KEY names.
pub(crate) fn key_name_at(alloc: Global, words: &[String]) -> Result<String, NoMemory>
    requires { 2 < length words.now }
    ensures { IfOk result (λ name. string_bytes name ≡ key_file_name (words_of words.now)) }
{
    match String::from_str(alloc, key_name(&words[2])) {
        Ok(name) => Ok(name),
        Err(_) => Err(NoMemory),
    }
}
