ghost use Rattle.std.specs.Prelude.{◌≡◌};
ghost use Rattle.xns_c.specs.Given.{as_byte};

/// C's yes or no.
pub fn as_byte(flag: bool) -> u8
    ensures { result ≡ as_byte flag }
{
    if flag { 1 } else { 0 }
}
