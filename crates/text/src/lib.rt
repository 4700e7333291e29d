// The text of a run, byte by byte: words, decimal numbers, ends of lines; `#` starts a comment. What is under way is a value that goes
// in and comes back, so that the text may come in pieces of any size.
#![tactic(auto)]

ghost use Rattle.std.specs.Prelude.{◌≡◌, true};
ghost use Rattle.text.specs.Feeding.{is_digit, with_digit, with_letter, going_on, stopped, commented, line_ended, ended};
ghost use Rattle.text.specs.Feeding.{in_number, in_word, in_gap, in_comment};

// The letters of a word are digits to the base 256, the first letter in front; seven fit, as many as the longest keyword has. All
// longer words are LONG, a number that no keyword has.
pub const LONG: u64 = 0x100_0000_0000_0000;

// What is under way, and how far it is read.
#[derive(Clone, Copy, Debug, PartialEq, Eq)]
pub enum Part {
    Gap,
    Word(u64),
    Number(u32),
    Comment,
}

#[derive(Clone, Copy, Debug, PartialEq, Eq)]
pub struct Reader {
    // the line's number, from 1
    pub line: u64,
    pub part: Part,
}

#[derive(Clone, Copy, Debug, PartialEq, Eq)]
pub enum Token {
    Word(u64),
    Number(u32),
    // a number over 4,294,967,295
    TooLarge,
    // a byte that belongs to no statement where it stands
    Stray,
}

// What a byte completes: at most one token, and perhaps the line.
#[derive(Clone, Copy, Debug, PartialEq, Eq)]
pub struct Fed {
    pub reader: Reader,
    pub token: Option<Token>,
    pub ends: bool,
}

impl Default for Reader {
    ghost use Rattle.text.specs.Feeding.{at_start};

    ghost is_default = { λ r. r ≡ at_start };

    fn default() -> Reader {
        Reader {
            line: 1,
            part: Part::Gap,
        }
    }
}

impl Reader {
    ghost use Rattle.text.specs.Feeding.{fed};

    pub fn feed(self, b: u8) -> Fed
        ensures { result ≡ fed self b }
    {
        let line = self.line;
        match self.part {
            Part::Gap => in_gap(line, b),
            Part::Word(word) => in_word(line, word, b),
            Part::Number(number) => in_number(line, number, b),
            Part::Comment => in_comment(line, b),
        }
    }
}

// A word of seven letters: an eighth does not fit any more.
const SEVEN_LETTERS: u64 = 0x1_0000_0000_0000;

// One digit more, given as its byte; nothing where the number is over 4,294,967,295.
fn with_digit(number: u32, digit: u8) -> Option<u32>
    requires { is_digit digit ≡ true }
    ensures { result ≡ with_digit number digit }
{
    number.checked_mul(10)?.checked_add(u32::from(digit - b'0'))
}

// One letter more.
fn with_letter(word: u64, letter: u8) -> u64
    ensures { result ≡ with_letter word letter }
{
    if SEVEN_LETTERS <= word {
        LONG
    } else {
        256 * word + u64::from(letter)
    }
}

fn going_on(line: u64, part: Part) -> Fed
    ensures { result ≡ going_on line part }
{
    Fed {
        reader: Reader { line, part },
        token: None,
        ends: false,
    }
}

fn stopped(line: u64, token: Option<Token>) -> Fed
    ensures { result ≡ stopped line token }
{
    Fed {
        token,
        ..going_on(line, Part::Gap)
    }
}

fn commented(line: u64, token: Option<Token>) -> Fed
    ensures { result ≡ commented line token }
{
    Fed {
        token,
        ..going_on(line, Part::Comment)
    }
}

// A run of more lines than a u64 counts is longer than any that is read.
fn line_ended(line: u64, token: Option<Token>) -> Fed
    ensures { result ≡ line_ended line token }
{
    Fed {
        ends: true,
        ..stopped(line.saturating_add(1), token)
    }
}

// The token ends before this byte, if the byte can stand after one.
fn ended(line: u64, token: Option<Token>, b: u8) -> Fed
    ensures { result ≡ ended line token b }
{
    match b {
        b'\n' => line_ended(line, token),
        b'#' => commented(line, token),
        b' ' | b'\t' | b'\r' => stopped(line, token),
        _ => stopped(line, Some(Token::Stray)),
    }
}

fn in_number(line: u64, number: u32, b: u8) -> Fed
    ensures { result ≡ in_number line number b }
{
    if !b.is_ascii_digit() {
        return ended(line, Some(Token::Number(number)), b);
    }
    match with_digit(number, b) {
        Some(longer) => going_on(line, Part::Number(longer)),
        None => stopped(line, Some(Token::TooLarge)),
    }
}

fn in_word(line: u64, word: u64, b: u8) -> Fed
    ensures { result ≡ in_word line word b }
{
    if b.is_ascii_lowercase() {
        going_on(line, Part::Word(with_letter(word, b)))
    } else {
        ended(line, Some(Token::Word(word)), b)
    }
}

fn in_gap(line: u64, b: u8) -> Fed
    ensures { result ≡ in_gap line b }
{
    match b {
        b'a'..=b'z' => in_word(line, 0, b),
        b'0'..=b'9' => in_number(line, 0, b),
        _ => ended(line, None, b),
    }
}

fn in_comment(line: u64, b: u8) -> Fed
    ensures { result ≡ in_comment line b }
{
    match b {
        b'\n' => line_ended(line, None),
        _ => going_on(line, Part::Comment),
    }
}
