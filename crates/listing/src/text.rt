// Text put into a lent output a piece at a time.
ghost use Rattle.std.specs.Prelude.{◌≡◌, [], ◌∷◌};
ghost use Rattle.listing.specs.Text.{Adds};
ghost use Rattle.listing.specs.Decimal.{decimal_of};
ghost use Rattle.listing.specs.Lines.{line_of};

const SPACE: u8 = b' ';

const NEWLINE: u8 = b'\n';

// A lent output, and the place behind what is put. A byte that has no place is left out, and what follows it is past the end: the
// place behind the last byte tells whether all of them fit. Where `write` is false nothing is written, and the text is only measured:
// one text for both, told apart by a flag, since a refused listing changes no byte and there is no heap to build it in.
#[derive(Drop)]
pub(crate) struct Page<'a> {
    pub(crate) out: &'a mut [u8],
    pub(crate) at: usize,
    pub(crate) write: bool,
}

impl<'a> Page<'a> {
    // One byte.
    fn byte(&mut self, b: u8)
        ensures { Adds self.old (b ∷ []) self.new }
    {
        if self.at <= self.out.len() {
            if self.write && self.at < self.out.len() {
                self.out[self.at] = b;
            }
            self.at += 1;
        }
    }

    fn text(&mut self, text: &[u8])
        ensures { Adds self.old text.now self.new }
    {
        for b in text {
            self.byte(*b);
        }
    }

    fn decimal(&mut self, n: usize)
        ensures { Adds self.old (decimal_of n) self.new }
    {
        self.text(itoa::Buffer::new().format(n).as_bytes());
    }

    // A line: a word, and each number behind a space.
    pub(crate) fn line(&mut self, word: &[u8], numbers: &[usize])
        ensures { Adds self.old (line_of word.now numbers.now) self.new }
    {
        self.text(word);
        for n in numbers {
            self.byte(SPACE);
            self.decimal(*n);
        }
        self.byte(NEWLINE);
    }
}
