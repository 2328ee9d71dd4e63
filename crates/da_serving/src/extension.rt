//! The extension of a square that has a header, as far as its samples need it.

ghost use Rattle.std.specs.Prelude.{◌≡◌, true, IfOk};
ghost use Rattle.data_header.specs.Headers.{Roots};
ghost use Rattle.square_layout.specs.Blocks.{SquareShares};
ghost use Rattle.da_serving.specs.Serving.{IsMadeServer};
ghost use Rattle.da_serving.specs.Sample.{is_asked_inside, IsServedSample};
ghost use Rattle.da_serving.specs.Extension.{IsExtensionOf};

use axis_roots::{LeftHalf, Message};
use data_header::DataTree;
use namespace_id::{Axis, Cell, NoMemory};
use square_layout::Square;
use square_serve::{Held, HeldError, serve_laws};
use std::alloc::Global;

/// The most bytes of requests that are answered from the left half of the extension: 64 frames of 10 bytes. A sample
/// from there hashes the nodes over an axis, and may extend a row; from so many on trees of all rows and columns cost less.
const FEW: usize = 640;

/// The extension of a square, and the square's header.
#[derive(Drop)]
pub(crate) enum Extension {
    /// All of it, with the trees of rows and columns that were needed.
    Whole(Held),
    /// Its left half.
    Left(LeftHalf),
}

impl Extension {
    /// That of a square for these requests for samples: the left half where they are few and the square is wider than
    /// `narrow`. Nothing where the square has no header.
    pub(crate) fn of(
        alloc: Global,
        square: Square,
        requests: &[u8],
        narrow: u16,
    ) -> Result<Option<Extension>, NoMemory>
        ensures { IfOk result (IsMadeServer IsExtensionOf square) }
    {
        serve_laws();
        if square.k > narrow && requests.len() <= FEW {
            let Some(half) = LeftHalf::of(alloc, square)? else {
                return Ok(None);
            };
            return Ok(Some(Extension::Left(half)));
        }
        match Held::of(alloc, square) {
            Ok(held) => Ok(Some(Extension::Whole(held))),
            Err(HeldError::NoHeader) => Ok(None),
            Err(HeldError::NoMemory) => Err(NoMemory),
        }
    }

    /// The sample of a cell of the square along an axis.
    pub(crate) fn sample(&mut self, asked: (Cell, Axis)) -> Message
        requires { (square : SquareShares) × (header : Roots) × IsExtensionOf self.old square header
            × (is_asked_inside square asked ≡ true) }
        ensures sample { (square : SquareShares) (header : Roots) → IsExtensionOf self.old square header →
            IsServedSample square header asked result }
        ensures kept { self.new ≡ self.old }
    {
        match self {
            Extension::Whole(held) => match held.sample(asked.0, asked.1) {
                Ok(message) => message,
                // Never taken: the square has the cell. The call refuses others.
                Err(_) => unreachable!(),
            },
            Extension::Left(half) => half.sample(asked.0, asked.1),
        }
    }

    /// The tree over the roots of the square's header.
    pub(crate) fn roots(&mut self, alloc: Global) -> Result<DataTree, NoMemory>
        ensures value { IfOk result (λ roots. (square : SquareShares) (header : Roots) →
            IsExtensionOf self.old square header → roots ≡ header) }
        ensures kept { self.new ≡ self.old }
    {
        match self {
            Extension::Whole(held) => DataTree::of(alloc, held.header()),
            Extension::Left(half) => DataTree::of(alloc, half.header()),
        }
    }
}
