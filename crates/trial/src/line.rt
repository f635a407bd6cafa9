// The table's text: what a line writes, its operations after a bar, its words after a semicolon.
ghost use Rattle.std.specs.Prelude.{◌≡◌, ◌-◌, ◌<◌, ◌==◌, take, drop, position, IfSome};
ghost use Rattle.trial.specs.Table.{end_of, is_line};

use std::array;

// The most letters and numbers, or words, that a line has.
pub const MOST: usize = 64;

// An operation has up to six numbers, so it begins before this place.
pub const OPS: usize = MOST - 5;

// The place of the first b.
fn place(text: &[u8], b: u8) -> Option<usize>
    ensures { result ≡ position (λ x. x == b) text.now }
{
    text.iter().position(|x| *x == b)
}

// What is before the first b, and what is from it on.
pub fn until(text: &[u8], b: u8) -> (&[u8], &[u8])
    ensures before { result.0.now ≡ take (end_of b text.now) text.now }
    ensures rest { result.1.now ≡ drop (end_of b text.now) text.now }
{
    text.split_at(place(text, b).unwrap_or(text.len()))
}

// A letter, a number or both.
#[derive(Clone, Copy)]
struct Token {
    letter: Option<u8>,
    number: u32,
}

fn digit(b: u8) -> Option<u32> {
    match b {
        b'0'..=b'9' => Some((b - b'0') as u32),
        b'a'..=b'f' => Some((b - b'a') as u32 + 10),
        _ => None,
    }
}

// One digit more. Of what does not fit, the last digits count.
fn shifted(number: u32, radix: u32, digit: u32) -> u32 {
    let before = if radix == 16 {
        number % 268435456 * 16
    } else {
        number % 429496730 * 10
    };
    before.wrapping_add(digit)
}

impl Token {
    const NONE: Token = Token {
        letter: None,
        number: 0,
    };

    // After an x digits are hexadecimal.
    fn of(text: &[u8]) -> Token {
        let mut token = Token::NONE;
        let mut radix = 10;
        for b in text {
            match digit(*b) {
                Some(d) if d < radix => token.number = shifted(token.number, radix, d),
                _ if *b == b'x' => radix = 16,
                _ => token.letter = Some(*b),
            }
        }
        token
    }
}

// The tokens of a text, and how many there are. Each comes after a space or a brace, so what is
// before the first goes to the last place, which means nothing.
fn tokens_of(text: &[u8]) -> ([Token; MOST], usize)
    ensures { result.1 < 64 }
{
    let (line, _) = until(text, b'\n');
    let mut tokens = [Token::NONE; MOST];
    let mut count = 0;
    let mut pieces = line.split(|b| *b == b' ' || *b == b'{');
    if let Some(piece) = pieces.next() {
        tokens[MOST - 1] = Token::of(piece);
    }
    for piece in pieces {
        tokens[count] = Token::of(piece);
        count = (count + 1) % MOST;
    }
    (tokens, count)
}

// What is asked for: a letter, the number beside it, and the five after it.
#[derive(Clone, Copy, Debug, PartialEq, Eq)]
pub struct Op {
    pub letter: u8,
    pub numbers: [u32; 6],
}

impl Op {
    // No operation begins with a token that has no letter.
    fn of(tokens: &[Token; 6]) -> Option<Op> {
        let letter = tokens[0].letter?;
        Some(Op {
            letter,
            numbers: tokens.map(|t| t.number),
        })
    }

    // The operation in braces, if there is one.
    pub fn within(text: &[u8]) -> Option<Op> {
        let (tokens, _) = tokens_of(text);
        Op::of(tokens.first_chunk()?)
    }
}

#[derive(Clone, Copy)]
pub struct Line<'a> {
    pub written: &'a [u8],
    operations: &'a [u8],
    words: &'a [u8],
}

// Is it a line? A comment is none, nor is an empty line.
pub fn is_line(text: &[u8]) -> bool
    ensures { result ≡ is_line text.now }
{
    !text.starts_with(b"\n") && !text.starts_with(b"#")
}

impl<'a> Line<'a> {
    // A space is before the bar, unless nothing is.
    pub fn of(text: &'a [u8]) -> Line<'a>
        ensures { result.written.now ≡ take (end_of 124 text.now - 1) text.now }
    {
        let (written, asked) = until(text, b'|');
        let (operations, words) = until(asked, b';');
        Line {
            written: &written[..written.len().saturating_sub(1)],
            operations,
            words,
        }
    }

    // The operation that begins at each place, if one does.
    pub fn ops(self) -> [Option<Op>; OPS] {
        let (tokens, _) = tokens_of(self.operations);
        array::from_fn(|k| Op::of(tokens[k..].first_chunk()?))
    }

    // The words that are to be fed, in the first places, and how many they are, if the line gives
    // any.
    pub fn words(self) -> Option<([u32; MOST], usize)>
        ensures { IfSome result (λ words. words.1 < 64) }
    {
        if self.words.is_empty() {
            return None;
        }
        let (tokens, count) = tokens_of(self.words);
        Some((tokens.map(|t| t.number), count))
    }
}

#[cfg(test)]
mod tests {
    use super::*;
    use std::test::Fail;

    #[test]
    fn a_line_is_read(rt: HostRuntime) -> Result<(), Fail> {
        let line = Line::of(b"a {S} | n1 5 r ; 5 x1f\n");
        assert_eq!(rt; line.written, b"a {S}".as_slice());
        let n = Op {
            letter: b'n',
            numbers: [1, 5, 0, 0, 0, 0],
        };
        let r = Op {
            letter: b'r',
            numbers: [0; 6],
        };
        let mut ops = [None; OPS];
        ops[0] = Some(n);
        ops[2] = Some(r);
        assert_eq!(rt; line.ops(), ops);
        let (words, count) = line.words().ok_or("no words")?;
        assert_eq!(rt; count, 2);
        assert_eq!(rt; words.first_chunk(), Some(&[5, 31]));
        Ok(())
    }
}
