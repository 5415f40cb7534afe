// A text that is put into the first places of an output, piece by piece. Each method puts one piece after those that
// stand there, and leaves all places after it.
ghost use Rattle.std.specs.Prelude.{[], ◌∷◌, length};
ghost use Rattle.listing.specs.Puts.{HasRoom, Puts};

#[derive(Drop)]
pub(crate) struct Text<'a> {
    pub(crate) out: &'a mut [u8],
    pub(crate) len: usize,
}

impl<'a> Text<'a> {
    // One byte.
    pub(crate) fn put_byte(&mut self, x: u8)
        requires { HasRoom self.old 1 }
        ensures { Puts (x ∷ []) self.old self.new }
    {
        self.out[self.len] = x;
        self.len += 1;
    }

    // Bytes as they are.
    pub(crate) fn put(&mut self, bytes: &[u8])
        requires { HasRoom self.old (length bytes.now) }
        ensures { Puts bytes.now self.old self.new }
    {
        let end = self.len + bytes.len();
        self.out[self.len..end].copy_from_slice(bytes);
        self.len = end;
    }
}
