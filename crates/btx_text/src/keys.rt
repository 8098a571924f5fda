//! Keys, whose case is ignored.
ghost use Rattle.std.specs.Prelude.{◌≡◌, ◌↔◌, IsTrue};
ghost use Rattle.btx_text.specs.language.Keys.{folded};

/// Lowers the letters `A-Z` of a key. No other byte has a case.
pub fn fold_key(key: &mut [u8])
    ensures { key.new ≡ folded key.old }
{
    key.make_ascii_lowercase();
}

/// Whether two keys are the same where the case of `A-Z` is ignored.
pub fn same_key(one: &[u8], other: &[u8]) -> bool
    ensures { IsTrue result ↔ (folded one.now ≡ folded other.now) }
{
    one.eq_ignore_ascii_case(other)
}
