//! Of drawn cells and generated blocks.

ghost use Rattle.std.specs.Prelude.{◌≡◌, ◌<◌, Result, IsTrue, IfOk};
ghost use Rattle.namespace_id.specs.Cells.{is_width};
ghost use Rattle.sampling.specs.declared.draws.DrawError.TheVariants.{NoMemory as Full};
ghost use Rattle.one_answer.specs.Ones.{AreOne};

use namespace_id::{Cell, NoMemory};
use sampling::{DrawError, block, cells};
use square_layout::Block;
use std::alloc::Global;

/// A key draws one list of cells.
pub fn cells_twice(
    alloc: Global,
    key: &[u8; 32],
    k: u16,
    count: u32,
) -> (Result<Vec<Cell>, DrawError>, Result<Vec<Cell>, DrawError>)
    requires width { IsTrue (is_width k) }
    ensures { AreOne (λ cells. cells.items) Full result.0 result.1 }
{
    let first = cells(alloc, key, k, count);
    let second = cells(alloc, key, k, count);
    (first, second)
}

/// A number makes one block.
pub fn block_twice(
    alloc: Global,
    number: u64,
    k: u16,
) -> (Result<Block, NoMemory>, Result<Block, NoMemory>)
    requires width { IsTrue (is_width k) }
    ensures { IfOk result.0 (λ first. IfOk result.1 (λ second. first ≡ second)) }
{
    let first = block(alloc, number, k);
    let second = block(alloc, number, k);
    (first, second)
}
