//! `data_root BLOCK`: prints the data root of the block in a file, in hexadecimal digits. It shows how a
//! program of one's own stands on these crates.
#![tactic(auto)]

ghost use Rattle.std.specs.Prelude.{◌≡◌, IfOk, IfSome, IsNone};
ghost use Rattle.data_header.specs.Headers.{Roots};
ghost use Rattle.data_header.specs.DataRoots.{data_root_of};
ghost use Rattle.square_layout.specs.Layout.{block_square};
ghost use Rattle.square_layout.specs.Refusals.{layout_refusal, AnswersLaying};
ghost use Rattle.axis_roots.specs.Grids.{IsHeaderOf, HasNoHeader};

use axis_roots::header_of_square;
use da_wire::{FrameError, read_block};
use data_header::data_root;
use square_layout::{Block, LayError, lay};
use std::alloc::{AllocError, Global};
use std::process::ExitCode;
use std::{env, fs, io};
use thiserror::Error;

/// Why there is no data root to print.
#[derive(Debug, Drop, Error)]
enum Failure {
    #[error("usage: data_root BLOCK")]
    Usage,
    #[error(transparent)]
    File(#[from] io::Error),
    #[error("not a block frame: {0}")]
    Frame(#[from] FrameError),
    #[error("no square: {0}")]
    Layout(#[from] LayError),
    #[error("the square has no header")]
    NoHeader,
    #[error(transparent)]
    Text(#[from(alloc)] AllocError),
}

/// The data root of a block: that of the header of its square; none where the square has no header.
/// Refuses what `lay` refuses.
fn root_of(alloc: Global, block: &Block) -> Result<Option<[u8; 32]>, LayError>
    ensures first { AnswersLaying result (layout_refusal block.now) }
    ensures root { IfOk result (λ found. IfSome found (λ root. (header : Roots) ×
        IsHeaderOf header (block_square block.now) × (root ≡ data_root_of header))) }
    ensures none { IfOk result (λ found. IsNone found → HasNoHeader (block_square block.now)) }
{
    let square = lay(alloc, block)?;
    match header_of_square(alloc, &square) {
        Ok(Some(header)) => Ok(Some(data_root(&header))),
        Ok(None) => Ok(None),
        Err(_) => Err(LayError::NoMemory),
    }
}

/// Reads the block in the file that the first word names, and prints its data root.
fn print_root(rt: &HostRuntime) -> Result<(), Failure> {
    let Some(name) = env::args(rt)?.nth(1) else {
        return Err(Failure::Usage);
    };
    let bytes = fs::read(rt, name.as_str())?;
    let block = read_block(rt.alloc(), &bytes)?;
    let Some(root) = root_of(rt.alloc(), &block)? else {
        return Err(Failure::NoHeader);
    };
    println!(rt; "{}", hex::encode(rt.alloc(), root.as_slice())?)?;
    Ok(())
}

fn main(rt: HostRuntime) -> ExitCode {
    match print_root(&rt) {
        Ok(()) => ExitCode::SUCCESS,
        Err(failure) => {
            let _printed = eprintln!(&rt; "data_root: {failure}");
            ExitCode::FAILURE
        }
    }
}
