//! A room for the code of one width.

ghost use Rattle.std.specs.Prelude.{◌≡◌, IsTrue, IfOk};
ghost use Rattle.namespace_id.specs.Cells.{is_width};

use namespace_id::NoMemory;
use std::alloc::Global;
use std::marker::Model;

/// An encoder and decoder for the code of one width: what a call works in. Contracts see it as its
/// width.
#[derive(Drop)]
pub struct Room {
    pub(crate) k: u16,
    // for each position the exponent of a value of the locator
    pub(crate) exponents: Vec<u32>,
}

impl Model for Room {
    ghost use Rattle.std.specs.Prelude.{ℕ};
    ghost use Rattle.leopard_code.specs.Locators.{IsRoom};

    ghost Value = { ℕ };

    ghost view = { λ r. r.k };

    ghost invariant = { λ r. IsRoom r.k r.exponents.items };
}

impl Room {
    /// A room for the code of width `k`, a power of two from 1 to 512. It takes all memory that the
    /// code needs, 8k bytes.
    pub fn new(alloc: Global, k: u16) -> Result<Room, NoMemory>
        requires { IsTrue (is_width k) }
        ensures { IfOk result (λ room. room ≡ k) }
    {
        let exponents = vec![in alloc; 0; 2 * k as usize]?;
        Ok(Room { k, exponents })
    }
}
