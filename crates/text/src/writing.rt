// Texts put on a page, one behind another. Each is written only if all of its bytes have room, and the page's place moves behind them in either
// case: so a page over an empty buffer tells how much room is wanted.
ghost use Rattle.std.specs.Prelude.{◌≡◌, ℕ, List, [], ◌∷◌, ◌++◌, decimal, flat_map};
ghost use Rattle.text.specs.Commas.{commas};
ghost use Rattle.text.specs.Pages.{Gains};

// What has a text: the bytes that stand for it.
pub trait Text {
    ghost bytes: { Self → List ℕ };

    // Puts the text on the page.
    fn put_on(&self, page: &mut Page)
        ensures { Gains page.old (bytes self.now) page.new };
}

// A lent buffer, and the place up to which it is written, or would be if it had room.
#[derive(Drop)]
pub struct Page<'a> {
    buf: &'a mut [u8],
    at: usize,
}

impl<'a> Page<'a> {
    // The buffer as a page, to be written from the place `at` on.
    pub fn new(buf: &'a mut [u8], at: usize) -> Page<'a>
        ensures same_buffer { result.buf.ghost_name ≡ buf.entry.ghost_name }
        ensures unwritten { result.buf.now ≡ buf.old }
        ensures place { result.at ≡ at }
    {
        Page { buf, at }
    }
}

impl Page<'_> {
    // The place behind what was put.
    pub fn at(&self) -> usize
        ensures { result ≡ self.now.at }
    {
        self.at
    }

    // The bytes.
    pub fn put(&mut self, bytes: &[u8])
        ensures { Gains self.old bytes.now self.new }
    {
        let end = self.at.saturating_add(bytes.len());
        if end <= self.buf.len() && self.at <= end {
            self.buf[self.at..end].copy_from_slice(bytes);
        }
        self.at = end;
    }

    // The number in decimal digits.
    pub fn put_number(&mut self, n: u16)
        ensures { Gains self.old (decimal n) self.new }
    {
        if n >= 10 {
            self.put_number(n / 10);
        }
        self.put(&[b'0' + (n % 10) as u8]);
    }

    // The numbers with a comma between each two.
    pub fn put_list(&mut self, ns: &[u16])
        ensures { Gains self.old (commas ns.now) self.new }
    {
        for (i, n) in ns.iter().enumerate() {
            if i > 0 {
                self.put(b",");
            }
            self.put_number(*n);
        }
    }

    // The key, the numbers with a comma between each two, and the byte 10.
    pub fn put_line(&mut self, key: &[u8], ns: &[u16])
        ensures { Gains self.old (key.now ++ (commas ns.now ++ (10 ∷ []))) self.new }
    {
        self.put(key);
        self.put_list(ns);
        self.put(b"\n");
    }

    // The texts of all.
    pub fn put_each<T: Text>(&mut self, all: &[T])
        ensures { Gains self.old (flat_map T.bytes all.now) self.new }
    {
        for x in all {
            x.put_on(self);
        }
    }
}
