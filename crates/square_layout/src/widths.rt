//! How wide a square is.

ghost use Rattle.std.specs.Prelude.{◌≡◌, ◌≤◌, ◌*◌, true, None};
ghost use Rattle.std.specs.Option.{option_map_or};
ghost use Rattle.namespace_id.specs.Cells.{is_width};
ghost use Rattle.square_layout.specs.Layout.{holding_from};
ghost use Rattle.square_layout.specs.Refusals.{max_shares, size_refusal};

/// How many shares the square of the width `k` has.
pub(crate) fn square_size(k: u16) -> u64
    ensures { result ≡ k * k }
{
    u64::from(k) * u64::from(k)
}

/// The width of the least square that holds so many shares.
pub(crate) fn least_width(count: u64) -> u16
    requires { count ≤ max_shares }
    ensures value { result ≡ holding_from 9 1 count }
    ensures width { is_width result ≡ true }
    ensures holds { count ≤ result * result }
{
    let mut k: u16 = 1;
    while square_size(k) < count {
        k *= 2;
    }
    k
}

/// The width of the square of so many shares: the one that is asked for, or the least.
pub(crate) fn width_for(width: Option<u16>, count: u64) -> u16
    requires { size_refusal width count ≡ None }
    ensures value { result ≡ option_map_or (λ k. k) width (holding_from 9 1 count) }
    ensures width { is_width result ≡ true }
    ensures holds { count ≤ result * result }
{
    match width {
        Some(k) => k,
        None => least_width(count),
    }
}
