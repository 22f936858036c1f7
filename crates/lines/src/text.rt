// Text put into a buffer. What does not fit is left out and still counted, so that a caller learns the length of the whole.
ghost use Rattle.std.specs.Prelude.{◌≡◌, [], ◌∷◌};
ghost use Rattle.lines.specs.Text.{added, decimal};

use itoa::Buffer;

// A line, and how far it has come in its buffer. The count stays at the largest number, which no line comes near. It is no fmt::Write:
// what `write!` promises of the bytes holds where it answers Ok, and nothing says that it does.
#[derive(Drop)]
pub struct Line<'a> {
    pub buffer: &'a mut [u8],
    pub size: usize,
}

impl Line<'_> {
    pub fn put_byte(&mut self, byte: u8)
        ensures { self.new ≡ added self.old (byte ∷ []) }
    {
        if self.size < self.buffer.len() {
            self.buffer[self.size] = byte;
        }
        self.size = self.size.saturating_add(1);
    }

    #[tactic(auto, using(crate::proofs::Texts::added_next))]
    pub fn put_text(&mut self, text: &str)
        ensures { self.new ≡ added self.old text.now }
    {
        for byte in text.as_bytes() {
            self.put_byte(*byte);
        }
    }

    // In decimal.
    #[tactic(auto, using(crate::proofs::Texts::decimal_printed))]
    pub fn put_number(&mut self, number: u64)
        ensures { self.new ≡ added self.old (decimal number) }
    {
        let mut digits = Buffer::new();
        self.put_text(digits.format(number));
    }
}
