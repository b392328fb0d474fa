// Well-formed UTF-8.
ghost use Rattle.std.specs.Prelude.{◌≡◌};
ghost use Rattle.definition.specs.Text.{is_utf8};

// Well-formed UTF-8.
pub fn is_utf8(s: &[u8]) -> bool
    ensures { result ≡ is_utf8 s.now }
{
    std::str::from_utf8(s).is_ok()
}
