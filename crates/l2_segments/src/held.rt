// Where a string stands, in segments.
ghost use Rattle.std.specs.Prelude.{◌≡◌, ◌≤◌, ◌+◌, ◌*◌};
ghost use Rattle.l2_segments.specs.Strings.{segments_of};

/// The bytes of a segment.
const SEGMENT_BYTES: u32 = 8;

/// The segments of a line.
pub(crate) const LINE_SEGMENTS: u32 = 8;

/// A string's place: its tag, its first segment, and its length in bytes.
#[derive(Clone, Copy, Default)]
pub(crate) struct Held {
    pub(crate) tag: u8,
    pub(crate) start: u32,
    pub(crate) len: u8,
}

impl Held {
    /// The segments that the string takes.
    pub(crate) fn segments(&self) -> u32
        ensures { result ≡ segments_of self.now.len }
    {
        segments_of(self.len as usize)
    }

    /// The segment behind the string.
    pub(crate) fn end(&self) -> u32
        requires { self.now.start ≤ 128 }
        ensures { result ≡ self.now.start + segments_of self.now.len }
    {
        self.start + self.segments()
    }
}

/// The segments that so many bytes take.
pub(crate) fn segments_of(bytes: usize) -> u32
    requires { bytes ≤ 255 }
    ensures { result ≡ segments_of bytes }
{
    (bytes as u32).div_ceil(SEGMENT_BYTES)
}

/// The index of a segment's first byte.
pub(crate) fn first_byte(segment: u32) -> usize
    ensures { result ≡ 8 * segment }
{
    SEGMENT_BYTES as usize * segment as usize
}
