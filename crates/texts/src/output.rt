// Bytes put into a lent buffer from a fill on; what finds no room is left out.
ghost use Rattle.std.specs.Prelude.{◌≡◌, ◌-◌, decimal, length};
ghost use Rattle.texts.specs.Output.{Puts};

// A lent buffer that is filled from a place on. The fill may lie past the end; no room is left then.
#[derive(Drop)]
pub struct Output<'a> {
    pub bytes: &'a mut [u8],
    pub fill: usize,
}

impl<'a> Output<'a> {
    // The whole buffer, to be filled from its start.
    pub fn over(bytes: &'a mut [u8]) -> Output<'a>
        ensures same_reference { result.bytes.ghost_name ≡ bytes.entry.ghost_name }
        ensures bytes { result.bytes.now ≡ bytes.old }
        ensures fill { result.fill ≡ 0 }
    {
        Output { bytes, fill: 0 }
    }

    // How many bytes are free.
    pub fn free(&self) -> usize
        ensures { result ≡ length self.now.bytes.now - self.now.fill }
    {
        self.bytes.len().saturating_sub(self.fill)
    }

    // The text from the fill on, as far as there is room.
    pub fn put(&mut self, text: &[u8])
        ensures { Puts self.old text.now self.new }
    {
        let many = text.len().min(self.free());
        if many == 0 {
            return;
        }
        let end = self.fill + many;
        self.bytes[self.fill..end].copy_from_slice(&text[..many]);
        self.fill = end;
    }

    // A number in decimal from the fill on, as far as there is room.
    pub fn put_number(&mut self, n: u64)
        ensures { Puts self.old (decimal n) self.new }
    {
        self.put(itoa::Buffer::new().format(n).as_bytes());
    }
}
