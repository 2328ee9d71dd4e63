//! What a talk has in common with the commands that answer the same requests.

ghost use Rattle.da_conversing.specs.Laws.{RepliesAreSamples, RepliesAreAnswers};

use da_wire::{value_laws, wire_laws};
use square_serve::serve_laws;

/// What `hold` replies is what `sample` and `namespace` write.
pub fn reply_laws()
    // To a file of requests for samples of cells in the square, the replies of the held square are what
    // `sample` writes of the square and the file.
    ensures samples { RepliesAreSamples }

    // To a file of requests for namespaces other than PARITY, what `namespace` writes of both.
    ensures answers { RepliesAreAnswers }
{
    serve_laws();
    wire_laws();
    value_laws();
}
