//! Brace depth.
ghost use Rattle.std.specs.Prelude.{◌≡◌, ◌≤◌, ◌<◌, ◌+◌, ◌^◌, length, take};
ghost use Rattle.btx_text.specs.language.Elements.{depth_after, depth_of};

/// The brace depth after a byte: one more after `{`, one less after `}`, but never below 0.
pub fn depth_after(depth: usize, byte: u8) -> usize
    requires { depth + 1 < 2 ^ 64 }
    ensures { result ≡ depth_after depth byte }
{
    match byte {
        b'{' => depth + 1,
        b'}' => depth.saturating_sub(1),
        _ => depth,
    }
}

/// The brace depth before the byte at a place of a string, which may be the string's end.
pub fn depth_at(string: &[u8], place: usize) -> usize
    requires { place ≤ length string.now }
    ensures value { result ≡ depth_of (take place string.now) }
    ensures bound { result ≤ place }
{
    let mut depth = 0;
    for byte in &string[..place] {
        depth = depth_after(depth, *byte);
    }
    depth
}
