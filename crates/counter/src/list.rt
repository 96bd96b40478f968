// The listing of the book, as cardlist prints it.
ghost use Rattle.std.specs.Prelude.{◌≡◌};
ghost use Rattle.listing.specs.Lines.{listing};

use refusal::Refusal;

// Writes the listing of a book. Whoever calls it has to show that the text is that listing, whole.
fn print(rt: &(impl Print + Eprint), book: &[u8], text: &[u8])
    requires { text.now ≡ listing book.now }
{
    crate::say(rt, text);
}

fn print_listing(rt: &(impl Print + Eprint), book: &[u8]) {
    let mut text = [0u8; listing::ROOM];
    let length = listing::whole(book, &mut text);
    print(rt, book, &text[..length]);
}

// A file that is no book is refused with its words.
pub(crate) fn print_book(rt: &(impl Print + Eprint), book: &[u8]) {
    if book::is_book(book) {
        print_listing(rt, book);
    } else {
        crate::refuse(rt, Refusal::Malformed);
    }
}
