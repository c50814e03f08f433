// A page.
ghost use Rattle.std.specs.Prelude.{◌≡◌, ◌<◌, ◌^◌, length};

// Lent memory with text on its front. No number is above the greatest that a size can be.
#[derive(Drop)]
pub struct Page<'a> {
    memory: &'a mut [u8],
    // How many bytes were said so far, those that did not fit too.
    said: usize,
    ghost small: { length memory.now < 2 ^ 63 },
    ghost counted: { said < 2 ^ 64 },
}

impl<'a> Page<'a> {
    // A page with nothing on it.
    pub fn new(memory: &'a mut [u8]) -> Page<'a>
        ensures said { result.said ≡ 0 }
        ensures memory { result.memory.now ≡ memory.old }
        ensures lender { result.memory.ghost_name ≡ memory.entry.ghost_name }
    {
        Page { memory, said: 0 }
    }
}

impl Page<'_> {
    ghost use Rattle.std.specs.Prelude.{◌∷◌, []};
    ghost use Rattle.pages.specs.Pages.{Says, Answered};

    pub fn push(&mut self, byte: u8)
        ensures { Says self.old (byte ∷ []) self.new }
    {
        if self.said < self.memory.len() {
            self.memory[self.said] = byte;
        }
        self.said = self.said.saturating_add(1);
    }

    // Whole pieces are copied, since a record has thousands of them.
    pub fn push_bytes(&mut self, bytes: &[u8])
        ensures { Says self.old bytes.now self.new }
    {
        let start = self.said.min(self.memory.len());
        let room = self.memory.len() - start;
        if bytes.len() <= room {
            self.memory[start..start + bytes.len()].copy_from_slice(bytes);
        } else {
            self.memory[start..].copy_from_slice(&bytes[..room]);
        }
        self.said = self.said.saturating_add(bytes.len());
    }

    pub fn push_str(&mut self, text: &str)
        ensures { Says self.old text.now self.new }
    {
        self.push_bytes(text.as_bytes())
    }

    // How many bytes were said, or as an error, how many bytes of memory would have been enough.
    pub fn finish(self) -> Result<usize, usize>
        ensures answer { Answered self.entry.said (length self.entry.memory.now) result }
        ensures memory { self.exit.0.now ≡ self.entry.memory.now }
    {
        if self.said <= self.memory.len() {
            Ok(self.said)
        } else {
            Err(self.said)
        }
    }
}

#[cfg(test)]
mod tests {
    use super::*;
    use std::test::Fail;

    #[test]
    fn what_fits_stands_there(rt: HostRuntime) -> Result<(), Fail> {
        let mut memory = *b"......";
        let mut page = Page::new(&mut memory);
        page.push_str("ab");
        page.push(b'c');
        page.push_bytes(b"d");
        assert_eq!(rt; page.finish(), Ok(4));
        assert_eq!(rt; memory, *b"abcd..");
        Ok(())
    }

    #[test]
    fn all_is_counted(rt: HostRuntime) -> Result<(), Fail> {
        let mut memory = *b"...";
        let mut page = Page::new(&mut memory);
        page.push_str("abcde");
        page.push(b'f');
        assert_eq!(rt; page.finish(), Err(6));
        assert_eq!(rt; memory, *b"abc");
        Ok(())
    }
}
