//! Lists of requests for namespaces.

ghost use Rattle.da_files.specs.Requests.{IsNext, namespaces_in};

use da_wire::next_request;
use namespace_id::Namespace;

/// The request at the front of a list of requests for namespaces, and the bytes after it.
pub fn next_name(bytes: &[u8]) -> Option<(Namespace, &[u8])>
    ensures { IsNext namespaces_in bytes.now result }
{
    next_request(bytes)
}
