// Runs the reader on good and damaged books (document 01, 'The book of a job'): a line for each, with the number of its
// answer, the length of the part handed back and what the book is.
#![tactic(auto)]

ghost use Rattle.std.specs.Prelude.{◌≤◌, ◌<◌};

use std::io;

// The book that document 01 prints, as P3 has it rewritten: bodies of 11, 6 and 1 bytes.
const PRINTED: [u8; 34] = [
    3, 1, 16, 0, 11, 0, 2, 27, 0, 6, 0, 3, 33, 0, 1, 0, 3, 3, 46, 46, 46, 46, 46, 46, 46, 46, 46,
    3, 5, 0, 1, 7, 0, 4,
];

fn show(rt: &impl Print, name: &str, bytes: &[u8], kind: u8) -> io::Result<()> {
    let number = book::book_number(book::judge_asked(bytes, kind));
    let length = book::body(bytes, kind).len();
    println!(rt; "{number} {length} {name}")
}

// The first bytes of the printed book.
fn cut(rt: &impl Print, name: &str, size: usize, kind: u8) -> io::Result<()>
    requires { size ≤ 34 }
{
    show(rt, name, &PRINTED[..size], kind)
}

// The printed book with one byte changed.
fn changed(rt: &impl Print, name: &str, at: usize, value: u8, kind: u8) -> io::Result<()>
    requires { at < 34 }
{
    let mut bytes = PRINTED;
    bytes[at] = value;
    show(rt, name, &bytes, kind)
}

// The first bytes of the printed book, with other lengths and the offsets that follow from them.
fn divided(
    rt: &impl Print,
    name: &str,
    size: usize,
    lengths: [u8; 3],
    offsets: [u8; 2],
    kind: u8,
) -> io::Result<()>
    requires { size ≤ 34 }
{
    let [hall, carriers, limits] = lengths;
    let [second, third] = offsets;
    let mut bytes = PRINTED;
    bytes[..16].copy_from_slice(&[
        3, 1, 16, 0, hall, 0, 2, second, 0, carriers, 0, 3, third, 0, limits, 0,
    ]);
    show(rt, name, &bytes[..size], kind)
}

// As long a book as a right job can have: bodies of 258, 24 and 1 bytes, 299 bytes in all. The hall's length, 2 + 256, and the
// offsets after it need their high bytes.
fn long(rt: &impl Print, name: &str, high: u8, kind: u8) -> io::Result<()> {
    let mut bytes = [0u8; 299];
    bytes[..16].copy_from_slice(&[3, 1, 16, 0, 2, high, 2, 18, 1, 24, 0, 3, 42, 1, 1, 0]);
    show(rt, name, &bytes, kind)
}

fn good(rt: &impl Print) -> io::Result<()> {
    cut(rt, "printed book, kind 1", 34, 1)?;
    cut(rt, "printed book, kind 2", 34, 2)?;
    cut(rt, "printed book, kind 3", 34, 3)?;
    divided(rt, "no carriers, kind 1", 34, [17, 0, 1], [33, 33], 1)?;
    divided(rt, "no carriers, kind 2", 34, [17, 0, 1], [33, 33], 2)?;
    divided(rt, "hall body of 2 bytes", 34, [2, 15, 1], [18, 33], 1)?;
    divided(rt, "carriers body of 3 bytes", 34, [14, 3, 1], [30, 33], 2)?;
    divided(rt, "limits body of 1 byte", 34, [14, 3, 1], [30, 33], 3)?;
    divided(rt, "least book, kind 1", 19, [2, 0, 1], [18, 18], 1)?;
    divided(rt, "least book, kind 3", 19, [2, 0, 1], [18, 18], 3)?;
    long(rt, "258 bytes, kind 1", 1, 1)?;
    long(rt, "258 bytes, kind 2", 1, 2)
}

fn no_contents(rt: &impl Print) -> io::Result<()> {
    cut(rt, "empty book", 0, 1)?;
    cut(rt, "15 bytes", 15, 1)?;
    cut(rt, "15 bytes, kind 9", 15, 9)?;
    changed(rt, "byte 0 is 2", 0, 2, 1)?;
    changed(rt, "byte 0 is 4", 0, 4, 2)
}

fn wrong_kinds(rt: &impl Print) -> io::Result<()> {
    changed(rt, "first kind 0", 1, 0, 1)?;
    changed(rt, "first two kinds 2", 1, 2, 1)?;
    changed(rt, "last kind 4", 11, 4, 3)?;
    changed(rt, "second kind 3, asked for 9", 6, 3, 9)
}

fn wrong_bodies(rt: &impl Print) -> io::Result<()> {
    cut(rt, "16 bytes", 16, 1)?;
    cut(rt, "last byte lacks", 33, 1)?;
    changed(rt, "first body at 15", 2, 15, 1)?;
    changed(rt, "first body at 17", 2, 17, 1)?;
    changed(rt, "first body at 272", 3, 1, 1)?;
    changed(rt, "gap before the second", 7, 28, 2)?;
    changed(rt, "overlap with the first", 7, 26, 2)?;
    changed(rt, "gap before the third", 12, 34, 3)?;
    changed(rt, "byte after the last body", 14, 0, 3)?;
    changed(rt, "last body past the end", 14, 2, 3)?;
    changed(rt, "second body of 5 bytes, and a gap", 9, 5, 2)?;
    long(rt, "258 bytes, high byte 0", 0, 1)
}

fn wrong_lengths(rt: &impl Print) -> io::Result<()> {
    divided(rt, "no hall body", 32, [0, 15, 1], [16, 31], 1)?;
    divided(rt, "hall body of 1 byte", 33, [1, 15, 1], [17, 32], 2)?;
    divided(rt, "carriers body of 1 byte", 34, [16, 1, 1], [32, 33], 2)?;
    divided(rt, "carriers body of 2 bytes", 34, [15, 2, 1], [31, 33], 2)?;
    divided(rt, "carriers body of 4 bytes", 34, [13, 4, 1], [29, 33], 2)?;
    divided(rt, "no limits body", 34, [12, 6, 0], [28, 34], 1)?;
    divided(rt, "limits body of 2 bytes", 34, [10, 6, 2], [26, 32], 1)?;
    divided(
        rt,
        "limits body of 3 bytes, asked for 9",
        34,
        [9, 6, 3],
        [25, 31],
        9,
    )
}

fn no_kind(rt: &impl Print) -> io::Result<()> {
    cut(rt, "asked for 0", 34, 0)?;
    cut(rt, "asked for 4", 34, 4)?;
    cut(rt, "asked for 255", 34, 255)
}

fn main(rt: HostRuntime) -> io::Result<()> {
    good(&rt)?;
    no_contents(&rt)?;
    wrong_kinds(&rt)?;
    wrong_bodies(&rt)?;
    wrong_lengths(&rt)?;
    no_kind(&rt)
}
