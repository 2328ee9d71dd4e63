//! The light nodes of scripts.

ghost use Rattle.std.specs.Prelude.{◌≡◌, ◌*◌, ◌<◌, ◌≤◌, ℕ, List, length, slice_get, Some, IsTrue, IfOk, map, false};
ghost use Rattle.namespace_id.specs.declared.cells.Cell.{Cell as Place};
ghost use Rattle.std.specs.List.{AllByRecursion, list_any};
ghost use Rattle.namespace_id.specs.Cells.{is_width};
ghost use Rattle.sampling.specs.Draws.{draw_limit, drawn_cells};
ghost use Rattle.da_net.specs.Networks.{light};
ghost use Rattle.da_net.specs.Nodes.{IsFreshNode};
ghost use Rattle.da_script.specs.Scripts.{draws_at};
ghost use Rattle.da_script.specs.Plays.{light_of};
ghost use Rattle.da_script.specs.Parts.{is_wide};

use crate::reading::{draw_count, draw_key, next_draw};
use data_header::Header;
use light_node::{LightNode, Picker};
use namespace_id::{Cell, NoMemory};
use sampling::{DrawError, cells};
use std::alloc::Global;

/// The greatest number of cells that are drawn at once.
const MAX_DRAWN: u32 = 4096;

/// A picker of the cells of a list, one for each number.
///
/// What uses it stands over any such picker: where the type of a node names a struct of ours, the toolchain makes no
/// proof yet.
pub(crate) trait Listed: Picker {
    ghost cells_of: { Self → List Place };

    /// The picker of these cells.
    fn of(cells: Vec<Cell>) -> Self
        ensures { cells_of result ≡ cells.items };

    ghost can: { (pick : Self) (number : ℕ) → number < length (cells_of pick) →
        Self.can_pick pick number };

    ghost only: { (pick : Self) (number : ℕ) (cell : Place) → Self.picks pick number cell →
        slice_get (cells_of pick) number ≡ Some cell };
}

/// Cells that were drawn.
#[derive(Drop)]
pub(crate) struct Drawn {
    cells: Vec<Cell>,
}

impl Picker for Drawn {
    ghost can_pick = { λ drawn number. number < length drawn.cells.items };

    ghost picks = { λ drawn number cell. slice_get drawn.cells.items number ≡ Some cell };

    fn pick(&self, number: u32) -> Cell {
        self.cells[number as usize]
    }
}

impl Listed for Drawn {
    ghost cells_of = { λ drawn. drawn.cells.items };

    fn of(cells: Vec<Cell>) -> Drawn {
        Drawn { cells }
    }

    ghost can = { λ drawn number below. below };

    ghost only = { λ drawn number cell is. is };
}

/// How many cells may be drawn of the square of width `k`.
fn draw_limit(k: u16) -> u32
    requires { IsTrue (is_width k) }
    ensures { result ≡ draw_limit k }
{
    MAX_DRAWN.min(4 * u32::from(k) * u32::from(k))
}

/// Whether a key in front of bytes, of so many, draws more cells than may be drawn.
pub(crate) fn has_wide(k: u16, count: u16, draws: &[u8]) -> bool
    requires width { IsTrue (is_width k) }
    requires size { 34 * count ≤ length draws.now }
    ensures { result ≡ list_any (is_wide k) (draws_at count draws.now) }
{
    let limit = draw_limit(k);
    let mut rest = draws;
    for _ in 0..count {
        if limit < u32::from(draw_count(rest)) {
            return true;
        }
        rest = next_draw(rest);
    }
    false
}

/// A light node that planned what a key draws.
fn light<F: Listed>(
    alloc: Global,
    header: &Header,
    key: &[u8; 32],
    count: u32,
) -> Result<LightNode<F>, NoMemory>
    requires { count ≤ draw_limit header.now.k }
    ensures fresh { IfOk result (IsFreshNode F.picks header.now) }
    ensures wanted { IfOk result (λ n. n.wanted ≡ drawn_cells key.now header.now.k count) }
{
    let cells = match cells(alloc, key, header.k, count) {
        Ok(cells) => cells,
        Err(DrawError::TooMany) => unreachable!(),
        Err(DrawError::NoMemory) => return Err(NoMemory),
    };
    let mut node = LightNode::new(alloc, header, count, F::of(cells))?;
    node.more(count)?;
    Ok(node)
}

/// The light nodes of so many keys, each with its count, in front of bytes.
pub(crate) fn lights<F: Listed>(
    alloc: Global,
    header: &Header,
    count: u16,
    draws: &[u8],
) -> Result<Vec<LightNode<F>>, NoMemory>
    requires size { 34 * count ≤ length draws.now }
    requires few { list_any (is_wide header.now.k) (draws_at count draws.now) ≡ false }
    ensures fresh { IfOk result (λ lights.
        AllByRecursion (IsFreshNode F.picks header.now) lights.items) }
    ensures kinds { IfOk result (λ lights. map (λ n. light n.wanted) lights.items ≡
        map (light_of header.now.k) (draws_at count draws.now)) }
{
    let mut nodes = Vec::new(alloc);
    let mut rest = draws;
    for _ in 0..count {
        let node = light(alloc, header, &draw_key(rest), u32::from(draw_count(rest)))?;
        let Ok(()) = nodes.push(node) else {
            return Err(NoMemory);
        };
        rest = next_draw(rest);
    }
    Ok(nodes)
}
