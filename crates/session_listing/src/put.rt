// Text put into lent bytes, from a place on. Each function answers the place after what it put.
ghost use Rattle.std.specs.Prelude.{◌+◌, ◌≤◌, ◌<◌, ◌≡◌, [], ◌∷◌, length};
ghost use Rattle.session_listing.specs.Digits.{digit, decimal};
ghost use Rattle.session_listing.specs.Text.{spaced};
ghost use Rattle.session_listing.specs.Inner.{Put, letters_of, numbers_of, parts_line};

use crate::parts::{Numbers, Parts, Word};

// The byte of a digit.
pub(crate) fn digit(value: u32) -> u8
    requires { value < 16 }
    ensures { result ≡ digit value }
{
    if value < 10 {
        return b'0' + value as u8;
    }
    b'a' + (value - 10) as u8
}

// A number in decimal.
fn put_number(lent: &mut [u8], at: usize, number: u32) -> usize
    requires { at + length (decimal number) ≤ length lent.old }
    ensures { Put lent.old at (decimal number) lent.new result }
{
    if number < 10 {
        lent[at] = digit(number);
        return at + 1;
    }
    let last = put_number(lent, at, number / 10);
    lent[last] = digit(number % 10);
    last + 1
}

// A space and a number.
fn put_spaced(lent: &mut [u8], at: usize, number: u32) -> usize
    requires { at + 11 ≤ length lent.old }
    ensures { Put lent.old at (spaced (number ∷ [])) lent.new result × (result ≤ at + 11) }
{
    lent[at] = b' ';
    put_number(lent, at + 1, number)
}

// A word, letter by letter.
fn put_word(lent: &mut [u8], at: usize, word: Word) -> usize
    requires { at + 7 ≤ length lent.old }
    ensures { Put lent.old at (letters_of word) lent.new result × (result ≤ at + 7) }
{
    let letters = word.letters();
    let end = at + letters.len();
    lent[at..end].copy_from_slice(letters);
    end
}

// Numbers, a space before each.
fn put_numbers(lent: &mut [u8], at: usize, numbers: Numbers) -> usize
    requires { at + 22 ≤ length lent.old }
    ensures { Put lent.old at (spaced (numbers_of numbers)) lent.new result × (result ≤ at + 22) }
{
    match numbers {
        Numbers::Nothing => at,
        Numbers::One(number) => put_spaced(lent, at, number),
        Numbers::Two(first, second) => {
            let next = put_spaced(lent, at, first);
            put_spaced(lent, next, second)
        }
    }
}

// A first line, without its end.
pub(crate) fn put_parts(lent: &mut [u8], at: usize, parts: Parts) -> usize
    requires { at + 31 ≤ length lent.old }
    ensures { Put lent.old at (parts_line parts) lent.new result × (result ≤ at + 31) }
{
    let word = put_word(lent, at, parts.word);
    put_numbers(lent, word, parts.numbers)
}
