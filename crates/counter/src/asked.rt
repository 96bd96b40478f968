// What the counter asks of crate stock, whose signed numbers are Results here.
ghost use Rattle.std.specs.Prelude.{◌≡◌};
ghost use Rattle.book.specs.Answers.{answer_of};
ghost use Rattle.lookup.specs.Lookup.{lookup_of};
ghost use Rattle.change.specs.Change.{add_answer, added, withdraw_answer, after_withdraw};
ghost use Rattle.stock.specs.Reading.{check_answer};
ghost use Rattle.counter.specs.Asked.{answered_of, fields_of, found_fields};

use refusal::Refusal;

// What a signed number of stock says: a place or a length, or the refusal of that number.
fn answered(answer: i64) -> Result<usize, Refusal>
    ensures { answer_of result ≡ answered_of answer }
{
    let size = answer.unsigned_abs() as usize;
    if 0 <= answer {
        return Ok(size);
    }
    Err(Refusal::of_number(size).unwrap_or(Refusal::Malformed))
}

// Looks a label up: the place of its card, or the refusal.
fn look_up(book: &[u8], label: &[u8]) -> Result<usize, Refusal>
    ensures { answer_of result ≡ lookup_of book.now label.now }
{
    answered(stock::stock_lookup(book, label))
}

// Whether the bytes are a well-formed book: 0, or the refusal.
pub(crate) fn check(book: &[u8]) -> Result<usize, Refusal>
    ensures { answer_of result ≡ check_answer book.now }
{
    answered(stock::read::stock_check(book))
}

// The eight fields of a card, or the refusal.
fn fields_of(card: &[u8]) -> Result<[i64; 8], Refusal>
    ensures { result ≡ fields_of card.now }
{
    let mut fields = [0i64; 8];
    answered(stock::read::stock_fields(card, &mut fields))?;
    Ok(fields)
}

// The fields of the card with a label, or the refusal.
pub(crate) fn find(book: &[u8], label: &[u8]) -> Result<[i64; 8], Refusal>
    ensures { result ≡ found_fields book.now label.now }
{
    look_up(book, label)?;
    fields_of(lookup::card_of(book, label))
}

// Adds the card with a label and eight values to the book in the first used bytes of a buffer: the new length, or the refusal.
pub(crate) fn add(
    buffer: &mut [u8],
    used: usize,
    label: &[u8],
    values: [i64; 8],
) -> Result<usize, Refusal>
    ensures { (answer_of result ≡ add_answer buffer.old used label.now values)
        × (buffer.new ≡ added buffer.old used label.now values) }
{
    let [voffs, ioffs, vgain, igain, phase, irmsoffs, squelch, poffs] = values;
    answered(stock::stock_add(
        buffer, used, label, voffs, ioffs, vgain, igain, phase, irmsoffs, squelch, poffs,
    ))
}

// Withdraws a label in the book in the first used bytes of a buffer: the new length, or the refusal.
pub(crate) fn withdraw(buffer: &mut [u8], used: usize, label: &[u8]) -> Result<usize, Refusal>
    ensures { (answer_of result ≡ withdraw_answer buffer.old used label.now)
        × (buffer.new ≡ after_withdraw buffer.old used label.now) }
{
    answered(stock::stock_withdraw(buffer, used, label))
}
