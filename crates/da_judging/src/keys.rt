//! Files that are a key of draws.

ghost use Rattle.std.specs.Prelude.{◌≡◌};
ghost use Rattle.da_judging.specs.Keys.{without_line_feed, key_file_in};

use hex::FromHex;

/// The bytes of a text, without the one line feed at its end if it has one.
fn without_line_feed(text: &[u8]) -> &[u8]
    ensures { result.now ≡ without_line_feed text.now }
{
    let len = text.len();
    if len > 0 && text[len - 1] == b'\n' {
        &text[..len - 1]
    } else {
        text
    }
}

/// The key that a file is: 32 bytes in 64 hexadecimal digits of either case, the higher half of a
/// byte first, and at most one line feed behind them. It takes no memory.
///
/// Refuses any other file, from offset 0 on.
pub fn read_key(bytes: &[u8]) -> Result<[u8; 32], u64>
    ensures { result ≡ key_file_in bytes.now }
{
    <[u8; 32]>::from_hex(without_line_feed(bytes)).ok().ok_or(0)
}
