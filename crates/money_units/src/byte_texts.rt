//! What is asked of the bytes of a text, said once for every crate.
ghost use Rattle.std.specs.Prelude.{◌≡◌, bytes_eq};
ghost use Rattle.std.specs.List.{list_all};
ghost use Rattle.money_units.specs.ByteTexts.{begins, is_visible};

/// Whether two texts have the same bytes.
pub fn same_bytes(text: &[u8], other: &[u8]) -> bool
    ensures { result ≡ bytes_eq text.now other.now }
{
    text == other
}

/// Whether a text begins with these bytes.
pub fn begins(prefix: &[u8], text: &[u8]) -> bool
    ensures { result ≡ begins prefix.now text.now }
{
    text.starts_with(prefix)
}

/// Whether all bytes are visible ones, from `!` to `~`.
pub fn all_visible(text: &[u8]) -> bool
    ensures { result ≡ list_all is_visible text.now }
{
    text.iter().all(|byte| is_visible(*byte))
}

fn is_visible(byte: u8) -> bool
    ensures { result ≡ is_visible byte }
{
    33 <= byte && byte <= 126
}
