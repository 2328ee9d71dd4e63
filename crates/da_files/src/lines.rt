//! The line of a hash.

ghost use Rattle.std.specs.Prelude.{◌≡◌};
ghost use Rattle.da_files.specs.Lines.{root_line};

use da_status::Line;

/// The line of a hash, as a data root is one, in hexadecimal digits.
pub fn hash_line(hash: &[u8; 32]) -> Line
    ensures { result ≡ root_line hash.now }
{
    let mut digits = [0u8; 64];
    let _written = hex::encode_to_slice(hash, &mut digits);
    let mut line = Line::new();
    line.put(&digits);
    line.put(b"\n");
    line
}
