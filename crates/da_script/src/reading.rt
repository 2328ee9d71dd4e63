//! Reading scripts: counts, keys and events.
//!
//! docs/FORMATS.md, "Scripts".

ghost use Rattle.std.specs.Prelude.{◌≡◌, ◌+◌, ◌*◌, ◌<◌, ◌≤◌, [], ◌∷◌, length, take, drop, IfSome, MatchOption};
ghost use Rattle.std.specs.Int.{w16, w32, from_be_bytes};
ghost use Rattle.std.specs.Option.{option_map};
ghost use Rattle.da_wire.specs.Walks.{walk_from};
ghost use Rattle.da_script.specs.Scripts.{full_count, light_count, front_size, move_of, move_at, bad_script};
ghost use Rattle.da_script.specs.Plays.{is_pooling_move, pooling, put_size, put_bytes};
ghost use Rattle.da_script.specs.Parts.{IsPuttable, payload_sizes};

use da_wire::RawFrame;

/// The sizes of both counts, of a key, of a key with its count, and of an event.
const COUNTS_SIZE: usize = 4;

const KEY_SIZE: usize = 32;

const DRAW_SIZE: usize = 34;

const MOVE_SIZE: usize = 7;

/// An event of a script.
#[derive(Clone, Copy)]
pub(crate) enum Move {
    /// The adversary puts an item into the pool.
    Put(u32),
    /// An item of the pool is handed to a node.
    Hand { item: u32, node: u16 },
    /// A node publishes its claim.
    Publish(u16),
}

/// How many events a script has, how many of them may put an item into the pool, and how many bytes of items they put.
#[derive(Clone, Copy)]
pub(crate) struct Counts {
    pub(crate) moves: usize,
    pub(crate) pooling: usize,
    pub(crate) bytes: u128,
}

/// The number that the first two bytes are.
fn number16(bytes: &[u8]) -> u16
    requires { 2 ≤ length bytes.now }
    ensures { result ≡ from_be_bytes w16 (take 2 bytes.now) }
{
    u16::from_be_bytes([bytes[0], bytes[1]])
}

/// The number that the first four bytes are.
fn number32(bytes: &[u8]) -> u32
    requires { 4 ≤ length bytes.now }
    ensures { result ≡ from_be_bytes w32 (take 4 bytes.now) }
{
    u32::from_be_bytes([bytes[0], bytes[1], bytes[2], bytes[3]])
}

/// How many full nodes there are.
pub(crate) fn full_count(script: &[u8]) -> u16
    requires { 4 ≤ length script.now }
    ensures { result ≡ full_count script.now }
{
    number16(script)
}

/// How many light nodes there are.
pub(crate) fn light_count(script: &[u8]) -> u16
    requires { 4 ≤ length script.now }
    ensures { result ≡ light_count script.now }
{
    number16(&script[2..])
}

/// How many bytes stand in front of the events.
fn front_size(script: &[u8]) -> usize
    requires { 4 ≤ length script.now }
    ensures { result ≡ front_size script.now }
{
    COUNTS_SIZE + DRAW_SIZE * light_count(script) as usize
}

/// What the light nodes draw, and what is behind it.
pub(crate) fn draws(script: &[u8]) -> &[u8]
    requires { 4 ≤ length script.now }
    ensures { result.now ≡ drop 4 script.now }
{
    &script[COUNTS_SIZE..]
}

/// The events.
pub(crate) fn moves(script: &[u8]) -> &[u8]
    requires { front_size script.now ≤ length script.now }
    ensures { result.now ≡ drop (front_size script.now) script.now }
{
    &script[front_size(script)..]
}

/// The key in front of bytes.
pub(crate) fn draw_key(bytes: &[u8]) -> [u8; 32]
    requires { 34 ≤ length bytes.now }
    ensures { result ≡ take 32 bytes.now }
{
    let mut key = [0; 32];
    key.copy_from_slice(&bytes[..KEY_SIZE]);
    key
}

/// How many cells the key in front of bytes draws.
pub(crate) fn draw_count(bytes: &[u8]) -> u16
    requires { 34 ≤ length bytes.now }
    ensures { result ≡ from_be_bytes w16 (take 2 (drop 32 bytes.now)) }
{
    number16(&bytes[KEY_SIZE..])
}

/// What is behind the key and the count in front of bytes.
pub(crate) fn next_draw(bytes: &[u8]) -> &[u8]
    requires { 34 ≤ length bytes.now }
    ensures { result.now ≡ drop 34 bytes.now }
{
    &bytes[DRAW_SIZE..]
}

/// The event of a tag and two numbers, where there are so many items to put.
fn move_of(items: usize, tag: u8, a: u32, b: u16) -> Option<Move>
    ensures value { result ≡ move_of items tag a b }
    ensures put { IfSome result (IsPuttable items) }
{
    match tag {
        0 if (a as usize) < items && b == 0 => Some(Move::Put(a)),
        1 => Some(Move::Hand { item: a, node: b }),
        2 if a == 0 => Some(Move::Publish(b)),
        _ => None,
    }
}

/// The event in front of bytes, where there are so many items to put.
fn move_at(items: usize, bytes: &[u8]) -> Option<Move>
    ensures value { option_map (λ move. (move, 7)) result ≡ move_at items bytes.now }
    ensures put { IfSome result (IsPuttable items) }
    ensures within { IfSome result (λ move. 7 ≤ length bytes.now) }
{
    if bytes.len() < MOVE_SIZE {
        return None;
    }
    move_of(
        items,
        bytes[0],
        number32(&bytes[1..]),
        number16(&bytes[5..]),
    )
}

/// The event in front of bytes, and the bytes after it; none where no event stands there.
pub(crate) fn next_move(items: usize, bytes: &[u8]) -> Option<(Move, &[u8])>
    ensures moves { MatchOption result (walk_from (move_at items) 0 bytes.now ≡ [])
        (λ x. walk_from (move_at items) 0 bytes.now ≡
        x.0 ∷ walk_from (move_at items) 0 x.1.now) }
    ensures put { IfSome result (λ x. IsPuttable items x.0) }
    ensures shorter { IfSome result (λ x. length x.1.now < length bytes.now) }
{
    match move_at(items, bytes) {
        Some(one) => Some((one, &bytes[MOVE_SIZE..])),
        None => None,
    }
}

/// The offset of the first event that isn't one, where there are so many items to put; 0 where the script ends before
/// its events begin; none where it is a script.
pub(crate) fn bad_script(items: usize, script: &[u8]) -> Option<u64>
    ensures { result ≡ bad_script items script.now }
{
    if script.len() < COUNTS_SIZE || script.len() < front_size(script) {
        return Some(0);
    }
    let mut at = front_size(script);
    while at < script.len() {
        match move_at(items, &script[at..]) {
            Some(_) => at += MOVE_SIZE,
            None => return Some(at as u64),
        }
    }
    None
}

/// Whether an event puts an item into the pool.
fn is_pooling(one: Move) -> bool
    ensures { result ≡ is_pooling_move one }
{
    match one {
        Move::Put(_) | Move::Publish(_) => true,
        Move::Hand { item: _, node: _ } => false,
    }
}

/// How many bytes of items an event puts into the pool: those of the payload of its frame.
fn put_size(frames: &[RawFrame<'_>], one: Move) -> usize
    requires { IsPuttable (length frames.now) one }
    ensures { result ≡ put_size (payload_sizes frames.now) one }
{
    match one {
        Move::Put(place) => frames[place as usize].payload.len(),
        Move::Publish(_) | Move::Hand { item: _, node: _ } => 0,
    }
}

/// How many events over these items there are, and what they put.
pub(crate) fn count_moves(frames: &[RawFrame<'_>], moves: &[u8]) -> Counts
    ensures moves { result.moves ≡ length (walk_from (move_at (length frames.now)) 0 moves.now) }
    ensures pooling { result.pooling ≡
        pooling (walk_from (move_at (length frames.now)) 0 moves.now) }
    ensures bytes { result.bytes ≡ put_bytes (payload_sizes frames.now)
        (walk_from (move_at (length frames.now)) 0 moves.now) }
{
    let mut counts = Counts {
        moves: 0,
        pooling: 0,
        bytes: 0,
    };
    let mut rest = moves;
    while let Some((one, after)) = next_move(frames.len(), rest) {
        counts.moves += 1;
        if is_pooling(one) {
            counts.pooling += 1;
        }
        counts.bytes += put_size(frames, one) as u128;
        rest = after;
    }
    counts
}
