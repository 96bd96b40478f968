// A section of a book: entries of one size, one after another, each of which begins with the 13 bytes of a serial. The check, and the search for a serial.
#![tactic(auto)]

ghost use Rattle.std.specs.Prelude.{◌≡◌, ◌<◌, length};
ghost use Rattle.section.specs.Inside.{front, back};
ghost use Rattle.section.specs.Sections.{Lies, lies, entry_at, serial_at, entry_ok, entries_ok, same, distinct, section_ok, first_found, found_in, has, placed_in};

use serial::Serial;

// What the entries of a section are: cards, or serials alone.
#[derive(Clone, Copy, Debug, PartialEq, Eq)]
pub enum Kind {
    Cards,
    Serials,
}

impl Kind {
    // Whether these bytes are such an entry.
    fn fits(self, entry: &[u8]) -> bool
        ensures { result ≡ entry_ok self entry.now }
    {
        match self {
            Kind::Cards => card::is_card(entry),
            Kind::Serials => serial::holds_serial(entry),
        }
    }
}

// The first eight bytes of a serial as one number.
fn front(serial: &[u8; 13]) -> u64
    ensures { result ≡ front serial.now }
{
    u64::from_le_bytes(*serial.first_chunk::<8>().unwrap())
}

// The last eight, three of which are among the first.
fn back(serial: &[u8; 13]) -> u64
    ensures { result ≡ back serial.now }
{
    u64::from_le_bytes(*serial.last_chunk::<8>().unwrap())
}

// Whether two serials are the same, all 13 bytes: two comparisons of numbers and not thirteen of bytes, whatever digits they share. The
// check of a section compares each entry with each before it.
fn same_serial(x: &[u8; 13], y: &[u8; 13]) -> bool
    ensures { result ≡ same x.now y.now }
{
    (front(x) == front(y)) & (back(x) == back(y))
}

// A section: what its entries are, where its first entry begins, how many bytes an entry has, and how many entries there are.
#[derive(Clone, Copy, Debug, PartialEq, Eq)]
pub struct Section {
    pub kind: Kind,
    pub base: usize,
    pub size: usize,
    pub count: usize,
}

impl Section {
    // Whether it lies in the bytes, with room for a serial in each entry. No product is made that could be too large.
    fn lies(self, b: &[u8]) -> bool
        ensures { result ≡ lies b.now self }
    {
        if self.size < 13 || b.len() < self.base {
            return false;
        }
        self.count <= (b.len() - self.base) / self.size
    }

    // The bytes of entry k.
    fn entry<'a>(self, b: &'a [u8], k: usize) -> &'a [u8]
        requires lies { Lies b.now self }
        requires within { k < self.count }
        ensures { result.now ≡ entry_at b.now self k }
    {
        let at = self.base + k * self.size;
        &b[at..at + self.size]
    }

    // The 13 bytes of its serial.
    fn serial<'a>(self, b: &'a [u8], k: usize) -> &'a [u8; 13]
        requires lies { Lies b.now self }
        requires within { k < self.count }
        ensures { result.now ≡ serial_at b.now self k }
    {
        self.entry(b, k).first_chunk::<13>().unwrap()
    }

    // Whether each entry is what it must be.
    fn entries_ok(self, b: &[u8]) -> bool
        requires { Lies b.now self }
        ensures { result ≡ entries_ok b.now self }
    {
        for k in 0..self.count {
            if !self.kind.fits(self.entry(b, k)) {
                return false;
            }
        }
        true
    }

    // Whether no serial stands twice. The first repeated serial ends the check.
    fn distinct(self, b: &[u8]) -> bool
        requires { Lies b.now self }
        ensures { result ≡ distinct b.now self }
    {
        for j in 0..self.count {
            let serial = self.serial(b, j);
            for i in 0..j {
                if same_serial(self.serial(b, i), serial) {
                    return false;
                }
            }
        }
        true
    }

    // Whether it is in order: it lies in the bytes, each entry is what it must be, and no serial stands twice.
    pub fn is_ok(self, b: &[u8]) -> bool
        ensures { result ≡ section_ok b.now self }
    {
        self.lies(b) && self.entries_ok(b) && self.distinct(b)
    }

    // The first entry with the serial of these 13 bytes.
    fn first(self, b: &[u8], key: &[u8; 13]) -> Option<usize>
        requires { Lies b.now self }
        ensures { result ≡ first_found b.now self key.now }
    {
        for k in 0..self.count {
            if same_serial(self.serial(b, k), key) {
                return Some(k);
            }
        }
        None
    }

    // The first entry with the serial; none in a section that does not lie in the bytes.
    pub fn find(self, b: &[u8], text: &[u8]) -> Option<usize>
        ensures { result ≡ found_in b.now self text.now }
    {
        if !self.lies(b) {
            return None;
        }
        self.first(b, &Serial::of(text).bytes())
    }

    // The place of entry k, from 0, where there is such an entry in the bytes.
    pub fn place(self, b: &[u8], k: usize) -> Option<usize>
        ensures { result ≡ placed_in b.now self k }
    {
        if self.lies(b) && k < self.count {
            Some(self.base + k * self.size)
        } else {
            None
        }
    }

    // Whether the serial stands in it.
    pub fn has(self, b: &[u8], text: &[u8]) -> bool
        ensures { result ≡ has b.now self text.now }
    {
        self.find(b, text).is_some()
    }
}
