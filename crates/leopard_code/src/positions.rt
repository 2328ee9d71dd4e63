//! Positions of a codeword.

ghost use Rattle.std.specs.Prelude.{◌≡◌, ◌*◌, nat_lt};
ghost use Rattle.std.specs.List.{list_all};
ghost use Rattle.namespace_id.specs.Lists.{holds_along};
ghost use Rattle.leopard_code.specs.Codewords.{are_positions};

/// Whether each position is below 2k.
fn are_inside(k: u16, known: &[u16]) -> bool
    ensures { result ≡ list_all (λ pos. nat_lt pos (2 * k)) known.now }
{
    known.iter().all(|pos| (*pos as u32) < 2 * k as u32)
}

/// Whether each position comes before the next.
fn are_ascending(known: &[u16]) -> bool
    ensures { result ≡ holds_along nat_lt known.now }
{
    for i in 1..known.len() {
        if known[i - 1] >= known[i] {
            return false;
        }
    }
    true
}

/// Whether these are positions of a codeword, all below 2k and strictly ascending.
///
/// docs/RULES.md, "The code".
pub fn are_positions(k: u16, known: &[u16]) -> bool
    ensures { result ≡ are_positions k known.now }
{
    are_inside(k, known) && are_ascending(known)
}
