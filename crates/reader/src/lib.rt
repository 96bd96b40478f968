// The bench reader: an iterator that walks a book card by card, and then its withdrawn serials, holding its place in the lent bytes.
#![tactic(auto)]

ghost use Rattle.std.specs.Prelude.{◌≡◌, ◌≤◌, length, ⊤};
ghost use Rattle.std.specs.Iterator.{MakesProgress};
ghost use Rattle.reader.specs.Walk.{past_count, entry_step, step_at, ahead};

// What kinds of entries a book has.
#[derive(Clone, Copy, Debug, PartialEq, Eq)]
pub enum Kind {
    Card,
    Withdrawn,
}

// An entry of a book, and the place of its first byte.
#[derive(Clone, Copy, Debug, PartialEq, Eq)]
pub struct Entry {
    pub kind: Kind,
    pub at: usize,
}

// The book, and the place at which the reader stands in it.
#[derive(Clone, Copy)]
pub struct Reader<'a> {
    pub book: &'a [u8],
    pub place: usize,
}

// Behind the last card stands the count of the withdrawn serials, two bytes, which is passed over.
fn past_count(at: usize, end: usize) -> usize
    requires { end ≤ 2424797 }
    ensures { result ≡ past_count at end }
{
    if at == end { at + 2 } else { at }
}

impl<'a> Reader<'a> {
    // A reader at the first entry of a book: behind the count of the cards.
    pub fn new(book: &'a [u8]) -> Reader<'a>
        ensures { (result.book ≡ book.entry) × (result.place ≡ 2) }
    {
        Reader { book, place: 2 }
    }

    // Goes past an entry of so many bytes, where the bytes are there.
    fn pass(&mut self, kind: Kind, size: usize) -> Option<Entry>
        requires { (size ≤ 37) × (self.now.place ≤ 3276754) }
        ensures { (self.new.book ≡ self.old.book) × (result ≡ (entry_step kind size (length self.old.book.now) self.old.place).found) × (self.new.place ≡ (entry_step kind size (length self.old.book.now) self.old.place).next) }
    {
        let at = self.place;
        let end = at + size;
        if end <= self.book.len() {
            self.place = end;
            return Some(Entry { kind, at });
        }
        None
    }
}

impl<'a> Iterator for Reader<'a> {
    type Item = Entry;

    ghost next_gives = { λ r found s. (s.book ≡ r.book) × (found ≡ (step_at r.book.now r.place).found) × (s.place ≡ (step_at r.book.now r.place).next) };

    ghost remaining = { ahead };

    // The entry at the reader's place, behind which it goes; at the end it stays.
    fn next(&mut self) -> Option<Entry>
        ensures steps { (self.new.book ≡ self.old.book) × (result ≡ (step_at self.old.book.now self.old.place).found) × (self.new.place ≡ (step_at self.old.book.now self.old.place).next) }
        ensures goes { MakesProgress (λ _. ⊤) ahead self.old result self.new }
    {
        let cards = book::cards(self.book);
        let withdrawn = book::withdrawn(self.book);
        let cards_end = 2 + cards.count * 37;
        let end = withdrawn.base + withdrawn.count * 13;
        self.place = past_count(self.place, cards_end);
        if self.place < cards_end {
            return self.pass(Kind::Card, 37);
        }
        if self.place < end {
            return self.pass(Kind::Withdrawn, 13);
        }
        None
    }
}
