//! The content of a file in memory.

ghost use Rattle.std.specs.Prelude.{◌≡◌, ◌-◌, length, min, take, drop, None};

/// What stands in memory under a name.
#[derive(Drop)]
pub(crate) enum Content {
    /// Nothing.
    Absent,
    /// Bytes that contracts speak of.
    Told(Vec<u8>),
    /// Bytes that no contract speaks of.
    Untold(Vec<u8>),
}

impl Content {
    ghost use Rattle.std.specs.Option.{option_copied};
    ghost use Rattle.trio_io.specs.Kept.{bytes_of};

    /// The bytes. `None` where there are none.
    pub fn bytes(&self) -> Option<&[u8]>
        ensures { option_copied result ≡ bytes_of self.now }
    {
        match self {
            Content::Absent => None,
            Content::Told(bytes) | Content::Untold(bytes) => Some(bytes),
        }
    }
}

/// Copies as many bytes from an offset on as there are and as there is room for, and says how many.
pub(crate) fn copy_from(bytes: &[u8], at: u64, buf: &mut [u8]) -> usize
    ensures count { result ≡ min (length buf.new) (length bytes.now - at) }
    ensures copied { take result buf.new ≡ take result (drop at bytes.now) }
{
    let at = at as usize;
    if bytes.len() <= at {
        return 0;
    }
    let rest = &bytes[at..];
    let count = rest.len().min(buf.len());
    buf[..count].copy_from_slice(&rest[..count]);
    count
}
