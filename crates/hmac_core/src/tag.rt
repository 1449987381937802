//! The bytes of a code.
ghost use Rattle.std.specs.Prelude.{◌≡◌, ◌≤◌, ◌-◌, ◌++◌, length, take, drop, replicate};

/// The bytes of a code, with zeros behind the first `len`.
#[derive(Clone, Copy, Debug, PartialEq, Eq)]
pub struct MacTag {
    pub bytes: [u8; 64],
    pub len: usize,
}

impl MacTag {
    pub(crate) fn new(digest: &[u8]) -> MacTag
        requires { length digest.now ≤ 64 }
        ensures value { take result.len result.bytes ≡ digest.now }
        ensures size { result.len ≡ length digest.now }
        ensures zeros { drop result.len result.bytes ≡ replicate (64 - result.len) 0 }
    {
        let mut bytes = [0; 64];
        put(&mut bytes, digest);
        MacTag {
            bytes,
            len: digest.len(),
        }
    }
}

// Writes `bytes` at the head of the list.
pub(crate) fn put(list: &mut [u8], bytes: &[u8])
    requires { length bytes.now ≤ length list.old }
    ensures { list.new ≡ bytes.now ++ drop (length bytes.now) list.old }
{
    list[..bytes.len()].copy_from_slice(bytes);
}
