// What is written goes into a lent buffer from its front on, as much as fits: no caller has to know how much room there is.
ghost use Rattle.std.specs.Prelude.{◌≡◌, [], ◌∷◌, decimal};
ghost use Rattle.names.specs.Numbers.{bytes_of};
ghost use Rattle.dump.specs.Digits.{digits};
ghost use Rattle.dump.specs.Line.{indent, text_number, name_of};
ghost use Rattle.dump.specs.Written.{Grew};

use itoa::Buffer;
use names::Name;

/// A lent buffer, and the place after what is written in it.
#[derive(Drop)]
pub struct Page<'a> {
    pub out: &'a mut [u8],
    pub at: usize,
}

impl<'a> Page<'a> {
    /// The buffer from its front on, with nothing written yet.
    pub fn new(out: &'a mut [u8]) -> Page<'a>
        ensures loan { result.out.ghost_name ≡ out.entry.ghost_name }
        ensures untouched { result.out.now ≡ out.old }
        ensures front { result.at ≡ 0 }
    {
        Page { out, at: 0 }
    }

    /// Writes one byte. At the buffer's end nothing is written, and the place stays.
    pub fn byte(&mut self, b: u8)
        ensures { Grew self.old self.new (b ∷ []) }
    {
        if self.out.len() <= self.at {
            return;
        }
        self.out[self.at] = b;
        self.at += 1;
    }

    /// Writes these bytes.
    pub fn bytes(&mut self, b: &[u8])
        ensures { Grew self.old self.new b.now }
    {
        for &x in b {
            self.byte(x);
        }
    }

    /// Writes two spaces for each level.
    pub fn indent(&mut self, level: usize)
        ensures { Grew self.old self.new (indent level) }
    {
        for _ in 0..level {
            self.byte(b' ');
            self.byte(b' ');
        }
    }

    /// Writes any number in decimal.
    pub fn decimal(&mut self, n: usize)
        ensures { Grew self.old self.new (decimal n) }
    {
        let mut buffer = Buffer::new();
        self.bytes(buffer.format(n).as_bytes());
    }

    /// Writes a number of 16 bits in decimal: it has at most five digits.
    pub fn number(&mut self, n: u16)
        ensures { Grew self.old self.new (digits n) }
    {
        self.decimal(usize::from(n));
    }

    /// Writes a text number, as `#7`.
    pub fn text_number(&mut self, n: u16)
        ensures { Grew self.old self.new (text_number n) }
    {
        self.byte(b'#');
        self.number(n);
    }

    // A name of the table. `put_name` writes a name whole or not at all, so it writes into an array in which each fits.
    fn known(&mut self, n: u16)
        ensures { Grew self.old self.new (bytes_of n) }
    {
        let mut name = [0u8; 32];
        let size = names::put_name(n, &mut name, 0);
        self.bytes(&name[..size]);
    }

    /// Writes an element's name: the table's, or the number of a name of the host's, as `?600`.
    #[tactic(auto, unfolding(crate::specs::Line::name_of))]
    pub fn name(&mut self, n: u16)
        ensures { Grew self.old self.new (name_of n) }
    {
        if n < Name::HOST {
            return self.known(n);
        }
        self.byte(b'?');
        self.number(n);
    }
}
