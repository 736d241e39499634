// The reader of the book of a job (document 01, 'The book of a job'): answers 11 to 15, and the body of a kind as a part of
// the lent book. Nothing here writes.
#![tactic(auto)]

ghost use Rattle.std.specs.Prelude.{◌≡◌, true, false, ◌+◌, ◌<◌, ◌≤◌, length, List, ℕ, MatchResult};
ghost use Rattle.book.specs.Book.{book_number, entry_in, contents_in, low_high, wrong_kinds, wrong_bodies, hall_under_two, carriers_not_threes, limits_not_one, wrong_lengths, book_verdict, no_kind, asked_verdict};
ghost use Rattle.book.specs.Handed.{Handed};

// What the reader refuses, the lowest number first.
#[derive(Clone, Copy, PartialEq, Eq)]
pub enum BookRefusal {
    NoContents,
    WrongKinds,
    WrongBodies,
    WrongLengths,
    NoKind,
}

// 'Contents first, then bodies. Byte 0 is 3. Three entries of 5 bytes follow'
pub const CONTENTS_LENGTH: usize = 16;

const ENTRY_COUNT: u8 = 3;

const ENTRY_LENGTH: usize = 5;

// 'Kinds are 1, 2, 3 in that order.' Bytes and not an enum: a book, and a caller in C, may name any byte, and one that is no kind is
// answered 12 or 15.
pub const HALL: u8 = 1;

pub const CARRIERS: u8 = 2;

pub const LIMITS: u8 = 3;

// width and height; start, goal and slip; only H
const HALL_LEAST: usize = 2;

const CARRIER_LENGTH: usize = 3;

const LIMITS_LENGTH: usize = 1;

// The number of each answer; 0 where nothing is refused. Promised by this name, so a function and no From.
pub fn book_number(verdict: Result<(), BookRefusal>) -> usize
    ensures { result ≡ book_number verdict }
{
    match verdict {
        Ok(()) => 0,
        Err(BookRefusal::NoContents) => 11,
        Err(BookRefusal::WrongKinds) => 12,
        Err(BookRefusal::WrongBodies) => 13,
        Err(BookRefusal::WrongLengths) => 14,
        Err(BookRefusal::NoKind) => 15,
    }
}

// '16-bit, low byte first'
#[tactic(auto, unfolding(crate::specs::Book::low_high))]
fn low_high(book: &[u8], at: usize) -> u16
    requires { at + 1 < length book.now }
    ensures { result ≡ low_high book.now at }
{
    u16::from_le_bytes([book[at], book[at + 1]])
}

// 'kind, offset, length, the last two 16-bit'
#[derive(Clone, Copy)]
pub struct Entry {
    pub kind: u8,
    pub offset: u16,
    pub length: u16,
}

impl Entry {
    // Entry n of the contents, n from 1 to 3.
    #[tactic(auto, unfolding(crate::specs::Book::entry_kind, crate::specs::Book::entry_offset, crate::specs::Book::entry_length))]
    fn read(book: &[u8], n: usize) -> Entry
        requires { (16 ≤ length book.now) × (1 ≤ n) × (n ≤ 3) }
        ensures { result ≡ entry_in book.now n }
    {
        let at = 1 + ENTRY_LENGTH * (n - 1);
        Entry {
            kind: book[at],
            offset: low_high(book, at + 1),
            length: low_high(book, at + 3),
        }
    }

    // Where its body begins and ends in the book.
    pub fn start(self) -> usize
        ensures { result ≡ self.offset }
    {
        usize::from(self.offset)
    }

    pub fn end(self) -> usize
        ensures { result ≡ self.offset + self.length }
    {
        self.start() + usize::from(self.length)
    }
}

// 14: 'hall body under 2 bytes'; P3: 'The carriers body has 3 bytes for each carrier, the limits body only H', '14 reads the new
// lengths'. A parser for each body.
fn hall_body_wrong(body: &[u8]) -> bool
    ensures { result ≡ hall_under_two body.now }
{
    body.len() < HALL_LEAST
}

fn carriers_body_wrong(body: &[u8]) -> bool
    ensures { result ≡ carriers_not_threes body.now }
{
    body.len() % CARRIER_LENGTH != 0
}

fn limits_body_wrong(body: &[u8]) -> bool
    ensures { result ≡ limits_not_one body.now }
{
    body.len() != LIMITS_LENGTH
}

// The three entries of a book that has them, in their order.
#[derive(Clone, Copy)]
struct Contents {
    hall: Entry,
    carriers: Entry,
    limits: Entry,
}

impl Contents {
    fn read(book: &[u8]) -> Contents
        requires { 16 ≤ length book.now }
        ensures { result ≡ contents_in book.now }
    {
        Contents {
            hall: Entry::read(book, 1),
            carriers: Entry::read(book, 2),
            limits: Entry::read(book, 3),
        }
    }

    // 12: 'kinds wrong'
    #[tactic(auto, unfolding(crate::specs::Book::wrong_kinds))]
    fn wrong_kinds(self) -> bool
        ensures { (book : List ℕ) → self ≡ contents_in book → result ≡ wrong_kinds book }
    {
        self.hall.kind != HALL || self.carriers.kind != CARRIERS || self.limits.kind != LIMITS
    }

    // 13: 'bodies don't follow one another exactly to the end'
    #[tactic(auto, unfolding(crate::specs::Book::wrong_bodies))]
    fn wrong_bodies(self, book: &[u8]) -> bool
        requires { self ≡ contents_in book.now }
        ensures { result ≡ wrong_bodies book.now }
    {
        self.hall.start() != CONTENTS_LENGTH
            || self.carriers.start() != self.hall.end()
            || self.limits.start() != self.carriers.end()
            || self.limits.end() != book.len()
    }

    // 'Bodies follow without gaps from byte 16 to the end': each begins where the one before it ends.
    #[tactic(auto, using(crate::proofs::Bodies::passed_consecutive, crate::proofs::Bodies::hall_part, crate::proofs::Bodies::carriers_part, crate::proofs::Bodies::limits_part), unfolding(crate::specs::Book::wrong_lengths))]
    fn wrong_lengths(self, book: &[u8]) -> bool
        requires { (self ≡ contents_in book.now) × (wrong_bodies book.now ≡ false) }
        ensures { result ≡ wrong_lengths book.now }
    {
        hall_body_wrong(&book[self.hall.start()..self.hall.end()])
            || carriers_body_wrong(&book[self.carriers.start()..self.carriers.end()])
            || limits_body_wrong(&book[self.limits.start()..])
    }

    // 15: 'a kind other than 1 to 3'
    #[tactic(auto, unfolding(crate::specs::Book::no_kind, lists::specs::Lists::refuse_if))]
    fn entry(self, kind: u8) -> Result<Entry, BookRefusal>
        ensures { (book : List ℕ) → self ≡ contents_in book → MatchResult result (λ e. (no_kind kind ≡ false) × (e ≡ entry_in book kind)) (λ r. (no_kind kind ≡ true) × (r ≡ BookRefusal.NoKind)) }
    {
        match kind {
            HALL => Ok(self.hall),
            CARRIERS => Ok(self.carriers),
            LIMITS => Ok(self.limits),
            _ => Err(BookRefusal::NoKind),
        }
    }
}

// The contents of a book that the answers 11 to 14 don't refuse.
#[tactic(auto, unfolding(crate::specs::Book::no_contents, crate::specs::Book::book_verdict, lists::specs::Lists::refuse_if))]
fn parse_contents(book: &[u8]) -> Result<Contents, BookRefusal>
    ensures { MatchResult result (λ contents. (book_verdict book.now ≡ Ok tt) × (contents ≡ contents_in book.now)) (λ refusal. book_verdict book.now ≡ Err refusal) }
{
    if book.len() < CONTENTS_LENGTH || book[0] != ENTRY_COUNT {
        return Err(BookRefusal::NoContents);
    }
    let contents = Contents::read(book);
    if contents.wrong_kinds() {
        return Err(BookRefusal::WrongKinds);
    }
    if contents.wrong_bodies(book) {
        return Err(BookRefusal::WrongBodies);
    }
    if contents.wrong_lengths(book) {
        return Err(BookRefusal::WrongLengths);
    }
    Ok(contents)
}

// The reader's answers 11 to 14.
pub fn judge_book(book: &[u8]) -> Result<(), BookRefusal>
    ensures { result ≡ book_verdict book.now }
{
    parse_contents(book)?;
    Ok(())
}

// The entry of a kind, or answers 11 to 15: 15 comes 'after 11 to 14'.
#[tactic(auto, unfolding(crate::specs::Book::asked_verdict, crate::specs::Book::if_good, lists::specs::Lists::refuse_if))]
pub fn parse_entry(book: &[u8], kind: u8) -> Result<Entry, BookRefusal>
    ensures { MatchResult result (λ entry. (asked_verdict book.now kind ≡ Ok tt) × (entry ≡ entry_in book.now kind)) (λ refusal. asked_verdict book.now kind ≡ Err refusal) }
{
    parse_contents(book)?.entry(kind)
}

// 'The reader is a small state that refers to the book it was given.'
#[derive(Clone, Copy)]
pub struct Reader<'a> {
    pub book: &'a [u8],
}

impl<'a> Reader<'a> {
    // What the reader answers, asked for one kind.
    pub fn answer(self, kind: u8) -> Result<(), BookRefusal>
        ensures { result ≡ asked_verdict self.entry.book.now kind }
    {
        parse_entry(self.book, kind)?;
        Ok(())
    }

    // 'Asked for one kind, the reader hands back that body as a part of the lent book'; 'with any refusal the part handed back is
    // empty'.
    #[tactic(auto, using(crate::proofs::Bodies::asked_inside, crate::proofs::Bodies::body_handed, crate::proofs::Places::good_place, crate::proofs::Places::refused_place, crate::proofs::Verdicts::refused_empty))]
    pub fn body(self, kind: u8) -> &'a [u8]
        ensures { Handed self.entry.book kind result }
    {
        match parse_entry(self.book, kind) {
            Ok(entry) => &self.book[entry.start()..entry.end()],
            Err(_) => &self.book[..0],
        }
    }
}

// For every caller that has a plain slice: a reader of it is asked.
pub fn judge_asked(book: &[u8], kind: u8) -> Result<(), BookRefusal>
    ensures { result ≡ asked_verdict book.now kind }
{
    Reader { book }.answer(kind)
}

pub fn body(book: &[u8], kind: u8) -> &[u8]
    ensures { Handed book.entry kind result }
{
    Reader { book }.body(kind)
}
