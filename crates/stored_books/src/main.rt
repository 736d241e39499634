// Compares stored books with the lines that the independent second program printed for them: `make_books 1 600 FILE` of
// second/ made both files. In `books` each book stands behind its 16-bit length, low byte first; in `expected` the lines of each
// are followed by an empty line. The comparison stops at the first book whose lines differ.
#![tactic(auto)]

use std::fs::File;
use std::io;

const CAPACITY: usize = 128;

// P3: 'the program reads at most 300 bytes'
const BOOK_MOST: usize = 300;

const NEWLINE: u8 = 10;

// More than there are.
const MOST_BOOKS: usize = 1000;

// The first so many bytes, or those that there are, and the rest.
fn divided(bytes: &[u8], size: usize) -> (&[u8], &[u8]) {
    bytes.split_at(size.min(bytes.len()))
}

// The first book, and what stands behind it.
fn next_book(books: &[u8]) -> Option<(&[u8], &[u8])> {
    match books {
        [] => None,
        [_] => Some((&[], &[])),
        [low, high, rest @ ..] => {
            let size = u16::from_le_bytes([*low, *high]);
            Some(divided(rest, usize::from(size)))
        }
    }
}

// What is expected behind the lines of a book and the empty line, where it begins with them.
fn after_lines<'a>(book: &[u8], expected: &'a [u8]) -> Option<&'a [u8]> {
    let mut columns = [0u16; 1024];
    let mut plans = [0u8; 65536];
    let mut layers = [0u8; 32768];
    let mut output = [0u8; 512];
    let mut out = [0u8; 4096];
    let end = lines::book_lines(
        book,
        CAPACITY,
        &mut columns,
        &mut plans,
        &mut layers,
        &mut output,
        &mut out,
    );
    let mut page = text::Page::new(&mut out, end);
    page.byte(NEWLINE);
    let ended = page.end();
    expected.strip_prefix(out.get(..ended)?)
}

// How many books were compared and whether the last differs, and how many bytes of lines are left.
struct Outcome {
    compared: usize,
    differ: bool,
    left: usize,
}

fn compare_all(books: &[u8], expected: &[u8]) -> Outcome {
    let mut books = books;
    let mut expected = expected;
    for compared in 0..MOST_BOOKS {
        let Some((book, books_left)) = next_book(books) else {
            return Outcome {
                compared,
                differ: false,
                left: expected.len(),
            };
        };
        let (read, _unread) = divided(book, BOOK_MOST);
        let Some(expected_left) = after_lines(read, expected) else {
            return Outcome {
                compared: compared + 1,
                differ: true,
                left: expected.len(),
            };
        };
        books = books_left;
        expected = expected_left;
    }
    Outcome {
        compared: MOST_BOOKS,
        differ: false,
        left: expected.len(),
    }
}

fn main(rt: HostRuntime) -> io::Result<()> {
    let mut books = [0u8; 65536];
    let books_size = reading::read_full(&mut File::open(&rt, "books")?, &mut books)?;
    let mut expected = [0u8; 65536];
    let expected_size = reading::read_full(&mut File::open(&rt, "expected")?, &mut expected)?;
    let Outcome {
        compared,
        differ,
        left,
    } = compare_all(&books[..books_size], &expected[..expected_size]);
    let differ = u8::from(differ);
    println!(rt; "{compared} books, {differ} differ, {left} bytes of lines left")
}
