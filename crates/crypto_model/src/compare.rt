//! Whether two texts are the same.
ghost use Rattle.std.specs.Prelude.{◌≡◌, length, bytes_eq};

/// Whether two texts of one length are the same. It looks at every byte, so that a difference doesn't end it
/// early; no constant time is claimed.
pub fn is_same(left: &[u8], right: &[u8]) -> bool
    requires { length left.now ≡ length right.now }
    ensures { result ≡ bytes_eq left.now right.now }
{
    let mut difference = 0;
    for (x, y) in left.iter().zip(right) {
        difference |= x ^ y;
    }
    difference == 0
}
