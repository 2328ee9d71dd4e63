//! Playing scripts.

ghost use Rattle.std.specs.Prelude.{◌≡◌, ℕ, ◌≤◌, ◌++◌, List, length, true, IsTrue, IfOk, OnOk, Some};
ghost use Rattle.namespace_id.specs.Cells.{is_width};
ghost use Rattle.da_net.specs.declared.items.Item.{Item as Put};
ghost use Rattle.da_net.specs.Nets.{IsSameNet, is_too_many};
ghost use Rattle.da_wire.specs.Frames.{frames_of};
ghost use Rattle.da_wire.specs.Walks.{walk_from};
ghost use Rattle.da_script.specs.declared.playing.PlayError.TheVariants as error;
ghost use Rattle.da_script.specs.declared.reading.Move.{Move as Played};
ghost use Rattle.da_script.specs.Scripts.{front_size, move_at, moves_of};
ghost use Rattle.da_script.specs.Plays.{event_of, Goes, GoOn, AreNodeLines, TellsPlay, Plays};
ghost use Rattle.da_script.specs.Parts.{AreFramesOf, payload_sizes, AreCounts, is_refused_by, IsMadeNet, Adds, IsPlayed};

use crate::items::{event_of, items_in};
use crate::lines::{node_line, refused_line, step_line};
use crate::nodes::{Drawn, Listed, has_wide, lights};
use crate::reading::{
    Counts, bad_script, count_moves, draws, full_count, light_count, moves, next_move,
};
use da_net::{Net, NetError, NetEvent};
use da_status::Line;
use da_wire::RawFrame;
use data_header::Header;
use light_node::Picker;
use namespace_id::{CellRoom, NoMemory};
use std::alloc::Global;
use thiserror::Error;

/// The most bytes of items that the events of a script put into the pool, an item as often as it is put.
const MAX_PUT_BYTES: u128 = 536_870_912;

/// Why a script is not played. The variants stand in the order in which they are tested.
#[derive(Clone, Copy, Debug, PartialEq, Eq, Error)]
pub enum PlayError {
    /// The script is not in its form from this offset on.
    #[error("there is no event of a script at {0}")]
    BadScript(u64),
    /// A network has fewer nodes, items or steps, a light node plans fewer cells, or fewer bytes of items may be put.
    #[error("there are too many nodes, cells, items, bytes of items or events")]
    Nodes,
    #[error("out of memory")]
    NoMemory,
}

impl From<NoMemory> for PlayError {
    ghost from_gives = { λ _ e. e ≡ error.NoMemory };

    fn from(_error: NoMemory) -> PlayError {
        PlayError::NoMemory
    }
}

/// Adds a line to a text.
fn put_line(text: &mut Vec<u8>, line: &Line) -> Result<(), NoMemory>
    ensures { OnOk result (text.new.items ≡ text.old.items ++ line.now) }
{
    match text.extend_from_slice(line.as_bytes()) {
        Ok(()) => Ok(()),
        Err(_) => Err(NoMemory),
    }
}

/// Takes a network through an event, and answers its line.
fn step<F: Picker>(net: &mut Net<F>, event: NetEvent) -> Line
    ensures goes { (items : List Put) (one : Played) → event_of items one ≡ Some event →
        Goes items net.old one net.new result }
    ensures kept { IsSameNet net.old net.new }
{
    match net.step(event) {
        Ok(stepped) => step_line(stepped),
        Err(why) => refused_line(&why),
    }
}

/// Takes a network through events, and adds their lines to a text.
fn go_on<F: Picker>(
    alloc: Global,
    net: &mut Net<F>,
    frames: &[RawFrame<'_>],
    moves: &[u8],
    text: &mut Vec<u8>,
) -> Result<(), NoMemory>
    requires { (items : List Put) × AreFramesOf frames.now items }
    ensures goes { OnOk result ((items : List Put) → AreFramesOf frames.now items →
        Adds (GoOn items net.old (walk_from (move_at (length frames.now)) 0 moves.now) net.new)
        text.old.items text.new.items) }
    ensures kept { OnOk result (IsSameNet net.old net.new) }
{
    let mut rest = moves;
    while let Some((one, after)) = next_move(frames.len(), rest) {
        let event = event_of(alloc, frames, one)?;
        put_line(text, &step(net, event))?;
        rest = after;
    }
    Ok(())
}

/// Adds the lines of the first nodes to a text. The room is for the header's width.
fn put_nodes<F: Picker>(
    net: &Net<F>,
    count: u16,
    room: &mut CellRoom,
    text: &mut Vec<u8>,
) -> Result<(), NoMemory>
    requires nodes { count ≤ length net.now.nodes }
    requires room { room.old.k ≡ net.now.header.k }
    ensures { OnOk result (Adds (AreNodeLines net.now count) text.old.items text.new.items) }
{
    for node in 0..count {
        put_line(text, &node_line(net, node, room))?;
    }
    Ok(())
}

/// The lines of events over a network, and of its nodes, of which there are so many.
fn tell<F: Picker>(
    alloc: Global,
    net: Net<F>,
    count: u16,
    room: CellRoom,
    frames: &[RawFrame<'_>],
    moves: &[u8],
) -> Result<Vec<u8>, NoMemory>
    requires nodes { count ≡ length net.nodes }
    requires room { room.k ≡ net.header.k }
    requires items { (items : List Put) × AreFramesOf frames.now items }
    ensures { IfOk result (λ text. (items : List Put) → AreFramesOf frames.now items →
        TellsPlay items net (walk_from (move_at (length frames.now)) 0 moves.now) text.items) }
{
    let mut net = net;
    let mut room = room;
    let mut text = Vec::new(alloc);
    go_on(alloc, &mut net, frames, moves, &mut text)?;
    net.run_law();
    put_nodes(&net, count, &mut room, &mut text)?;
    Ok(text)
}

/// The width of a header's square.
fn width(header: &Header) -> u16
    ensures value { result ≡ header.now.k }
    ensures width { is_width result ≡ true }
{
    header.k
}

/// Whether there are too many nodes, items or events for a network.
fn is_too_many(full: u16, lights: u16, counts: &Counts) -> bool
    ensures { result ≡ is_too_many full lights counts.now.pooling counts.now.moves }
{
    full > 8 || lights > 64 || counts.pooling > 65_536 || counts.moves > 1_048_576
}

/// Whether there are too many nodes, items or events for a network, too many bytes of items that are put, or too many
/// cells for a light node.
fn is_refused(k: u16, script: &[u8], counts: &Counts) -> bool
    requires width { IsTrue (is_width k) }
    requires size { front_size script.now ≤ length script.now }
    ensures { result ≡ is_refused_by k counts.now script.now }
{
    if is_too_many(full_count(script), light_count(script), counts) {
        return true;
    }
    counts.bytes > MAX_PUT_BYTES || has_wide(k, light_count(script), draws(script))
}

/// The network of a script that has so many events.
fn make<F: Listed>(
    alloc: Global,
    header: Header,
    script: &[u8],
    counts: &Counts,
) -> Result<Net<F>, PlayError>
    requires size { front_size script.now ≤ length script.now }
    ensures { (sizes : List ℕ) (moves : List Played) → AreCounts sizes counts.now moves →
        IsMadeNet header sizes moves script.now result }
{
    if is_refused(width(&header), script, counts) {
        return Err(PlayError::Nodes);
    }
    let lights = lights(alloc, &header, light_count(script), draws(script))?;
    let full = full_count(script);
    let items = counts.pooling as u32;
    match Net::new(alloc, header, full, lights, items, counts.moves as u32) {
        Ok(net) => Ok(net),
        Err(NetError::TooMany) => Err(PlayError::Nodes),
        Err(NetError::NoMemory) => Err(PlayError::NoMemory),
    }
}

/// What a script comes to that is in its form, over these items.
fn play_moves<F: Listed>(
    alloc: Global,
    header: Header,
    frames: &[RawFrame<'_>],
    script: &[u8],
) -> Result<Vec<u8>, PlayError>
    requires items { (items : List Put) × AreFramesOf frames.now items }
    requires size { front_size script.now ≤ length script.now }
    ensures { (items : List Put) → AreFramesOf frames.now items →
        IsPlayed header (payload_sizes frames.now) items (moves_of (length items) script.now)
        script.now result }
{
    let k = width(&header);
    let moves = moves(script);
    let counts = count_moves(frames, moves);
    let net = match make::<F>(alloc, header, script, &counts) {
        Ok(net) => net,
        Err(why) => return Err(why),
    };
    let room = CellRoom::new(alloc, k)?;
    let count = full_count(script) + light_count(script);
    let text = tell(alloc, net, count, room, frames, moves)?;
    Ok(text)
}

/// What a script comes to, where its light nodes have pickers of this type.
fn play_with<F: Listed>(
    alloc: Global,
    header: Header,
    messages: &[u8],
    script: &[u8],
) -> Result<Vec<u8>, PlayError>
    ensures { Plays header (frames_of messages.now) script.now result }
{
    let frames = items_in(alloc, messages)?;
    if let Some(at) = bad_script(frames.len(), script) {
        return Err(PlayError::BadScript(at));
    }
    play_moves::<F>(alloc, header, &frames, script)
}

/// What a script comes to under a header, with the items of a list of frames: a line for each of its events, in their
/// order, and then a line for each node of the network that they leave. All memory of the network is taken before its
/// first event; a claim takes its own where it is put, and so does the text.
///
/// Refuses a script that isn't in its form, with the offset of the first event that isn't one (0 where the script
/// ends before its events begin); then one with more nodes, items or events than a network may have, one whose events
/// put more than 536,870,912 bytes of payloads of items into the pool, an item as often as it is put, or one with a light
/// node that draws more cells than may be drawn.
///
/// docs/FORMATS.md, "Scripts"; docs/COMMANDS.md, "Output".
pub fn play(
    alloc: Global,
    header: Header,
    messages: &[u8],
    script: &[u8],
) -> Result<Vec<u8>, PlayError>
    ensures { Plays header (frames_of messages.now) script.now result }
{
    play_with::<Drawn>(alloc, header, messages, script)
}
