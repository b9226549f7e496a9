// Text, put into a room a piece at a time.
ghost use Rattle.std.specs.Prelude.{◌≡◌, ◌+◌, ◌≤◌, length};
ghost use Rattle.listing.specs.Decimal.{decimal};
ghost use Rattle.listing.specs.Lines.{labelled};
ghost use Rattle.listing.specs.Page.{HasRoom, Adds};

// A room that holds text up to `at`.
#[derive(Drop)]
pub(crate) struct Page<'a> {
    pub room: &'a mut [u8],
    pub at: usize,
}

impl Page<'_> {
    pub fn put(&mut self, x: &[u8])
        requires { HasRoom self.old (length x.now) }
        ensures { Adds self.old x.now self.new }
    {
        octets::put(self.room, self.at, x);
        self.at += x.len();
    }

    // A number in decimal. Not by `write!`: std doesn't say when a write to a page succeeds, and `render` promises that this one does.
    pub fn put_number(&mut self, n: u16)
        requires { HasRoom self.old (length (decimal n)) }
        ensures { Adds self.old (decimal n) self.new }
    {
        if 10 <= n {
            self.put_number(n / 10);
        }
        // `as`, since no `From` narrows: a digit is below 10.
        self.put(&[b'0' + (n % 10) as u8]);
    }

    // A text with a number after it.
    pub fn put_labelled(&mut self, x: &[u8], n: u16)
        requires { HasRoom self.old (length x.now + 5) }
        ensures put { Adds self.old (labelled x.now n) self.new }
        ensures most { self.new.at ≤ self.old.at + length x.now + 5 }
    {
        self.put(x);
        self.put_number(n);
    }
}
