//! What the steps of a session are lent.

ghost use Rattle.std.specs.Prelude.{◌≡◌, IsTrue, IfOk};
ghost use Rattle.namespace_id.specs.Cells.{is_width};
ghost use Rattle.repair_queue.specs.Tools.{AreTools};

use axis_roots::Proved;
use befp_maker::AxisRoom;
use leopard_code::Room;
use namespace_id::{BLANK_DIGEST, Digest, Namespace, NoMemory, PARITY, SHARE_SIZE, Share};
use std::alloc::Global;

/// Buffers for the steps of a session over a square of width k.
#[derive(Drop)]
pub(crate) struct Tools {
    /// A room for one axis, and one for a code.
    pub(crate) room: AxisRoom,
    pub(crate) code: Room,
    /// 2k shares of the row or column that is decided.
    pub(crate) line: Vec<Share>,
    /// k positions of it that are known, and their shares.
    pub(crate) known: Vec<u16>,
    pub(crate) given: Vec<Share>,
    /// The namespaces and digests of its leaves, and a copy that is folded.
    pub(crate) names: Vec<Namespace>,
    pub(crate) digests: Vec<Digest>,
    pub(crate) folded: Vec<Digest>,
    /// The line of a decided row or column that crosses it.
    pub(crate) across: Vec<Share>,
    /// A list for k samples, until it is handed out.
    pub(crate) spare: Option<Vec<Proved>>,
}

impl Tools {
    /// Tools for squares of width `k`.
    pub(crate) fn new(alloc: Global, k: u16) -> Result<Tools, NoMemory>
        requires width { IsTrue (is_width k) }
        ensures { IfOk result (AreTools k) }
    {
        let side = 2 * k as usize;
        let room = AxisRoom::new(alloc, k)?;
        let code = Room::new(alloc, k)?;
        let line = vec![in alloc; Share([0; SHARE_SIZE]); side]?;
        let known = Vec::with_capacity(alloc, k as usize)?;
        let given = Vec::with_capacity(alloc, k as usize)?;
        let names = vec![in alloc; PARITY; side]?;
        let digests = vec![in alloc; BLANK_DIGEST; side]?;
        let folded = vec![in alloc; BLANK_DIGEST; side]?;
        let across = vec![in alloc; Share([0; SHARE_SIZE]); side]?;
        let spare = Vec::with_capacity(alloc, k as usize)?;
        Ok(Tools {
            room,
            code,
            line,
            known,
            given,
            names,
            digests,
            folded,
            across,
            spare: Some(spare),
        })
    }
}
