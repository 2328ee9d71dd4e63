//! Openings of one leaf, as values: inclusion proofs together with what they open.

ghost use Rattle.hash_clash.specs.Openings.{HasShape};

use namespace_id::{Namespace, Share, digests_law, namespace_law, share_law};
use nmt_proofs::Path;

/// An NMT inclusion proof with its leaf: the namespace, the share, and the nodes that open them.
/// Which place of how many leaves they open is told beside it.
#[derive(Clone, Debug, Drop)]
pub struct Opening {
    pub name: Namespace,
    pub share: Share,
    pub path: Path,
}

/// Says that an opening has its shape. It changes nothing.
pub(crate) fn shape_law(opening: &Opening)
    ensures { HasShape opening.now }
{
    namespace_law(&opening.name);
    share_law(&opening.share);
    digests_law(opening.path.nodes());
}
