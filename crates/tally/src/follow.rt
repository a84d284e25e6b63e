// A scenario followed with a table that is kept by value: what each of its slots told is counted.
#![tactic(auto, unfolding(crate::specs::Follow::unused))]

ghost use Rattle.std.specs.Prelude.{◌≡◌};
ghost use Rattle.tally.specs.Follow.{unused, counted_in, followed};

use bus::bus::Bus;
use pairs::{Book, Counts, Pair, RECORDS};
use walk::follow::Listening;

// No record is in use.
fn unused() -> Book
    ensures { result ≡ unused }
{
    Book {
        counts: Counts::fresh(),
        table: [Pair::default(); RECORDS],
    }
}

// A slot that told somebody something is counted.
fn counted(mut book: Book, b: Bus) -> Book
    ensures { result ≡ counted_in book b }
{
    let heard = book.counts.hear(b);
    book.count(heard);
    book
}

// From power-on to the scenario's end.
pub fn follow(s: &[u8]) -> Book
    ensures { result ≡ followed s.now }
{
    Listening::to(s).fold(unused(), counted)
}
