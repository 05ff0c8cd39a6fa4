// How a listing ended, in a sentence for whoever reads it.
ghost use Rattle.std.specs.Prelude.{◌≡◌};
ghost use Rattle.pipes.specs.Words.{sentence_of};
ghost use Rattle.pipes.specs.Writing.{FrontWritten};

use crate::NotListed;
use crate::ends::write_whole;
use std::io::Write;

// Writes the sentence of a listing's end, or its first bytes where a write fails. The commands in bin/ tell by it how to end themselves, for a program has no status of its own.
pub fn say<W: Write>(listed: Result<(), NotListed>, to: &mut W)
    ensures { FrontWritten (W.contents to.old) (W.contents to.new) (sentence_of listed) }
{
    let _ = write_whole(sentence(listed), to);
}

// The sentence of a listing's end.
fn sentence(listed: Result<(), NotListed>) -> &'static [u8]
    ensures { result.now ≡ sentence_of listed }
{
    let Err(why) = listed else {
        return b"the letter is listed to its end\n";
    };
    match why {
        NotListed::BookRefused => b"the book is refused, and the letter was not read\n",
        NotListed::LetterRefused =>
            b"the letter is refused: it has more than 4,294,967,295 bytes\n",
        NotListed::BookTooLong => b"the book has more than 65,535 bytes; nothing is listed\n",
        NotListed::BookNotRead => b"the book could not be read; nothing is listed\n",
        NotListed::LetterNotRead => {
            b"the letter could not be read further; the listing is not complete\n"
        }
        NotListed::NotWritten => {
            b"the listing could not be written further; it is not complete\n"
        }
        NotListed::NotTaken => {
            b"the scanner could not take the letter further; the listing is not complete\n"
        }
    }
}
