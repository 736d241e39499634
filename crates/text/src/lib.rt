// Words and numbers written into a lent buffer, one after the other. What does not fit is left out.
#![tactic(auto)]

ghost use Rattle.std.specs.Prelude.{◌+◌, ◌%◌, ◌≡◌, [], ◌∷◌};
ghost use Rattle.text.specs.Text.{digits};
ghost use Rattle.text.specs.Lent.{Writes};

const TEN: usize = 10;

// A lent buffer, and the place at which the next byte goes.
#[derive(Drop)]
pub struct Page<'a> {
    out: &'a mut [u8],
    at: usize,
}

impl<'a> Page<'a> {
    pub fn new(out: &'a mut [u8], at: usize) -> Page<'a>
        ensures lent { result.out.ghost_name ≡ out.entry.ghost_name }
        ensures begun { (result.out.now ≡ out.old) × (result.at ≡ at) }
    {
        Page { out, at }
    }

    // Where the text ends.
    pub fn end(&self) -> usize
        ensures { result ≡ self.now.at }
    {
        self.at
    }

    // One byte, if there is room.
    #[tactic(auto, unfolding(crate::specs::Text::put, crate::specs::Text::put_byte))]
    pub fn byte(&mut self, byte: u8)
        ensures { Writes self.old self.new (byte ∷ []) }
    {
        if self.at < self.out.len() {
            self.out[self.at] = byte;
            self.at += 1;
        }
    }

    #[tactic(auto, using(crate::proofs::TextLaws::put_append, crate::proofs::TextLaws::put_none, std::proofs::lemmas::Grind::common_steps))]
    pub fn word(&mut self, word: &[u8])
        ensures { Writes self.old self.new word.now }
    {
        for &byte in word {
            self.byte(byte);
        }
    }

    // A number in decimal, digit by digit and not by Display: the clause says which bytes stand there where the page ends, with no heap.
    #[tactic(auto, using(crate::proofs::TextLaws::put_append, crate::proofs::TextLaws::digits_one, crate::proofs::TextLaws::digits_more))]
    pub fn number(&mut self, n: usize)
        ensures { Writes self.old self.new (digits n) }
    {
        if TEN <= n {
            self.number(n / TEN);
        }
        self.byte(last_digit(n));
    }
}

fn last_digit(n: usize) -> u8
    ensures { result ≡ 48 + n % 10 }
{
    b'0' + (n % TEN) as u8
}
