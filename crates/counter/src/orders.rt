// The orders of the counter, by their words.
ghost use Rattle.std.specs.Prelude.{◌≡◌};
ghost use Rattle.counter.specs.Orders.{order_of};

#[derive(Clone, Copy, Debug, PartialEq, Eq)]
pub enum Order {
    Find,
    Add,
    Withdraw,
    List,
    Check,
    New,
    Unread,
}

// The order of a word, where so many words stand on the command line.
pub(crate) fn order_of(word: &[u8], words: usize) -> Order
    ensures { result ≡ order_of word.now words }
{
    if serial::same_text(word, b"find") & (words == 4) {
        return Order::Find;
    }
    if serial::same_text(word, b"add") & (words == 12) {
        return Order::Add;
    }
    if serial::same_text(word, b"withdraw") & (words == 4) {
        return Order::Withdraw;
    }
    if serial::same_text(word, b"list") & (words == 3) {
        return Order::List;
    }
    if serial::same_text(word, b"check") & (words == 3) {
        return Order::Check;
    }
    if serial::same_text(word, b"new") & (words == 3) {
        return Order::New;
    }
    Order::Unread
}
