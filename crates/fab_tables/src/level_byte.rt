//! A service level, or none, in one byte.
ghost use Rattle.std.specs.Prelude.{◌≡◌, ◌<◌, IfSome};
ghost use Rattle.fab_tables.specs.LevelBytes.{level_of_byte};

pub(crate) const NO_LEVEL: u8 = 255;

pub(crate) fn level_of(byte: u8) -> Option<u8>
    ensures { result ≡ level_of_byte byte }
{
    if byte < 16 { Some(byte) } else { None }
}

pub(crate) fn byte_of(level: Option<u8>) -> u8
    requires { IfSome level (λ n. n < 16) }
    ensures { level_of_byte result ≡ level }
{
    level.unwrap_or(NO_LEVEL)
}
