//! What is known of each value of a type: of which numbers it is.

ghost use Rattle.std.specs.List.{AllByRecursion};
ghost use Rattle.share_split.specs.Blobs.{IsNamed};
ghost use Rattle.tx_list.specs.Payments.{blobs_of};

use crate::Payment;
use share_split::blobs_law;

/// Says that each blob of some payments has a namespace, bytes, and a signer of 20 bytes, if it has one. It changes
/// nothing.
pub(crate) fn payments_law(payments: &[Payment])
    ensures { AllByRecursion IsNamed (blobs_of payments.now) }
{
    for payment in payments {
        blobs_law(&payment.blobs);
    }
}
