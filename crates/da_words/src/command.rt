//! The commands, with the values of their words.

use crate::forms::{ExportForm, ImportForm};
use namespace_id::Axis;

/// A command with its values.
#[derive(Clone, Copy)]
pub enum Command {
    /// `check HEADER MESSAGES`
    Check,
    /// `build BLOCK`
    Build,
    /// `header SQUARE`
    Header,
    /// `sample SQUARE REQUESTS`
    Sample,
    /// `namespace SQUARE REQUESTS`
    Namespace,
    /// `verify HEADER ANSWER`
    Verify,
    /// `compact HEADER CLAIM`
    Compact,
    /// `repair HEADER MESSAGES`
    Repair,
    /// `light HEADER MESSAGES KEY COUNT`, with the key of the draws and how many there are
    Light([u8; 32], u32),
    /// `light HEADER MESSAGES @NAME COUNT`, with how many draws there are
    LightBy(u32),
    /// `net HEADER MESSAGES SCRIPT`
    Net,
    /// `show FILE`
    Show,
    /// `json FILE`
    Json,
    /// `demo NUMBER WIDTH`, with both numbers
    Demo(u64, u16),
    /// `verify HEADER ANSWER COMMITMENT`, with the commitment that the answer is to prove
    VerifyCommitment([u8; 32]),
    /// `verify HEADER ANSWER REQUEST`
    VerifyFor,
    /// `root HEADER`
    Root,
    /// `root HEADER ROOT`, with the data root that the header is to have
    RootIs([u8; 32]),
    /// `wanted MISSING AXIS`, with the axis
    Wanted(Axis),
    /// `cells HEADER KEY COUNT AXIS`, with the key of the draws, how many there are, and the axis
    Cells([u8; 32], u32, Axis),
    /// `cells HEADER @NAME COUNT AXIS`, with how many draws there are, and the axis
    CellsBy(u32, Axis),
    /// `blobs SHARES`
    Blobs,
    /// `transactions SQUARE`
    Transactions,
    /// `find SQUARE COMMITMENT`, with the commitment of the blobs
    Find([u8; 32]),
    /// `commit BLOCK`
    Commit,
    /// `prove SQUARE REQUESTS`
    Prove,
    /// `prove SQUARE START COUNT`, with the index of the first share and the number of shares
    ProveRange(u32, u32),
    /// `follow WANTED ANSWERS`
    Follow,
    /// `import FORM FILE WORD..`, with the form and what its words say
    Import(ImportForm),
    /// `export FORM FILE WORD..`, with the form and what its words say
    Export(ExportForm),
    /// `help`
    Help,
    /// `version`
    Version,
}
