// A tag's bytes.
ghost use Rattle.std.specs.Prelude.{◌≡◌, [], min, take};

// A tag's bytes, which may be copied; none where no tag was asked for. The buffer is one byte longer than any tag.
#[derive(Clone, Copy)]
pub struct TagBytes {
    pub(crate) buffer: [u8; 17],
    pub(crate) length: usize,
}

impl TagBytes {
    pub fn as_slice(&self) -> &[u8]
        ensures { result.now ≡ take (min self.now.length 17) self.now.buffer }
    {
        let length = self.length.min(17);
        &self.buffer[..length]
    }

    pub(crate) fn none() -> Self
        ensures { take result.length result.buffer ≡ [] }
    {
        TagBytes {
            buffer: [0; 17],
            length: 0,
        }
    }
}
