//! A hop count, or none, in two bytes.
ghost use Rattle.std.specs.Prelude.{◌≡◌};
ghost use Rattle.fab_hops.specs.HopCodes.{count_of_code};

/// No walk joins the two switches. Hop counts are smaller: they are below the number of switches.
pub(crate) const NOT_CONNECTED: u16 = u16::MAX;

pub(crate) fn hops_of(code: u16) -> Option<u16>
    ensures { result ≡ count_of_code code }
{
    if code < NOT_CONNECTED {
        Some(code)
    } else {
        None
    }
}
