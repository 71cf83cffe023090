//! Bytes to tokens.

ghost use Rattle.std.specs.Prelude.{◌≡◌, ◌≤◌, ◌<◌, length, drop, false, IfSome};
ghost use Rattle.script_words.specs.Literals as literals;
ghost use Rattle.script_words.specs.Signs as signs;
ghost use Rattle.script_words.specs.Lex as spec;
ghost use Rattle.script_words.specs.Lex.{LexesOnce, LexesAll, TokensAreFew};

use crate::class::Symbol;

/// What a token is, to the reader of a script.
#[derive(Clone, Copy, Debug, PartialEq, Eq)]
pub enum TokenKind {
    Name,
    Literal,
    /// A sign or a reserved word.
    Sign(Symbol),
}

/// A token. Its text is that part of the source.
#[derive(Clone, Copy, Debug, PartialEq, Eq)]
pub struct Token {
    pub kind: TokenKind,
    pub start: u32,
    pub end: u32,
}

/// A set of bytes, of which a run is measured: those of names, the digits of a decimal number, or
/// those of a hexadecimal one.
#[derive(Clone, Copy)]
pub enum Run {
    Word,
    Digit,
    HexDigit,
}

fn is_word(b: u8) -> bool
    ensures { result ≡ literals.is_word b }
{
    b.is_ascii_alphanumeric() || b == b'_'
}

fn is_in(run: Run, b: u8) -> bool
    ensures { result ≡ literals.is_in run b }
{
    match run {
        Run::Word => is_word(b),
        Run::Digit => b.is_ascii_digit(),
        Run::HexDigit => b.is_ascii_hexdigit(),
    }
}

/// How many bytes at the front are of the set.
fn run_len(run: Run, text: &[u8]) -> usize
    ensures len { result ≡ literals.run_len run text.now }
    ensures within { result ≤ length text.now }
{
    text.iter().take_while(|b| is_in(run, **b)).count()
}

fn part_len(mark: u8, run: Run, text: &[u8]) -> usize
    ensures len { result ≡ literals.part_len mark run text.now }
    ensures within { result ≤ length text.now }
{
    let [first, rest @ ..] = text else { return 0 };
    let digits = run_len(run, rest);
    if *first == mark && digits > 0 {
        1 + digits
    } else {
        0
    }
}

fn signed_len(text: &[u8]) -> usize
    ensures len { result ≡ literals.signed_len text.now }
    ensures within { result ≤ length text.now }
{
    let [first, rest @ ..] = text else { return 0 };
    if *first != b'+' && *first != b'-' {
        return run_len(Run::Digit, text);
    }
    let digits = run_len(Run::Digit, rest);
    if digits > 0 { 1 + digits } else { 0 }
}

fn exponent_len(mark: u8, text: &[u8]) -> usize
    ensures len { result ≡ literals.exponent_len mark text.now }
    ensures within { result ≤ length text.now }
{
    let [first, rest @ ..] = text else { return 0 };
    let digits = signed_len(rest);
    if *first == mark && digits > 0 {
        1 + digits
    } else {
        0
    }
}

#[tactic(auto, unfolding(crate::specs::Literals::scaled_len))]
fn scaled_len(run: Run, mark: u8, text: &[u8]) -> usize
    ensures len { result ≡ literals.scaled_len run mark text.now }
    ensures within { result ≤ length text.now }
{
    let whole = run_len(run, text);
    let point = part_len(b'.', run, &text[whole..]);
    whole + point + exponent_len(mark, &text[whole + point..])
}

fn is_hex(text: &[u8]) -> bool
    ensures { result ≡ literals.is_hex text.now }
{
    match text {
        [b'0', b'x', rest @ ..] => run_len(Run::HexDigit, rest) > 0,
        _ => false,
    }
}

/// The length of the longest literal at the front, which begins with a digit.
#[tactic(auto, unfolding(crate::specs::Literals::literal_len))]
fn literal_len(text: &[u8]) -> usize
    ensures len { result ≡ literals.literal_len text.now }
    ensures within { result ≤ length text.now }
{
    if is_hex(text) {
        return 2 + scaled_len(Run::HexDigit, b'p', &text[2..]);
    }
    let whole = run_len(Run::Digit, text);
    let exponent = exponent_len(b'b', &text[whole..]);
    if exponent > 0 {
        whole + exponent
    } else {
        scaled_len(Run::Digit, b'e', text)
    }
}

/// How many bytes at the front are blank or in a comment.
pub fn blank_len(text: &[u8]) -> usize
    ensures len { result ≡ spec.blank_len false text.now }
    ensures within { result ≤ length text.now }
{
    let mut inside = false;
    for (i, b) in text.iter().enumerate() {
        if inside {
            inside = *b != b'\n';
        } else if *b == b'#' {
            inside = true;
        } else if !matches!(*b, b' ' | b'\t' | b'\n' | b'\r') {
            return i;
        }
    }
    text.len()
}

/// The sign of one byte.
fn single_sign(b: u8) -> Option<Symbol>
    ensures { result ≡ signs.single_sign b }
{
    match b {
        b'{' => Some(Symbol::OpenBrace),
        b'}' => Some(Symbol::CloseBrace),
        b'(' => Some(Symbol::OpenParen),
        b')' => Some(Symbol::CloseParen),
        b'[' => Some(Symbol::OpenBracket),
        b']' => Some(Symbol::CloseBracket),
        b',' => Some(Symbol::Comma),
        b';' => Some(Symbol::Semicolon),
        b'=' => Some(Symbol::Equal),
        b'+' => Some(Symbol::Plus),
        b'-' => Some(Symbol::Minus),
        b'*' => Some(Symbol::Star),
        b'/' => Some(Symbol::Slash),
        b'|' => Some(Symbol::Bar),
        b'<' => Some(Symbol::Less),
        b'>' => Some(Symbol::Greater),
        b'?' => Some(Symbol::Ask),
        b'$' => Some(Symbol::Dollar),
        b'~' => Some(Symbol::Tilde),
        b'@' => Some(Symbol::At),
        _ => None,
    }
}

/// The sign of two bytes.
fn double_sign(a: u8, b: u8) -> Option<Symbol>
    ensures { result ≡ signs.double_sign a b }
{
    match (a, b) {
        (b'<', b'=') => Some(Symbol::LessEqual),
        (b'>', b'=') => Some(Symbol::GreaterEqual),
        (b'<', b'>') => Some(Symbol::Unequal),
        (b'-', b'>') => Some(Symbol::Arrow),
        (b'-', b'/') => Some(Symbol::Against),
        (b'/', b'\\') => Some(Symbol::And),
        (b'\\', b'/') => Some(Symbol::Or),
        _ => None,
    }
}

/// The longest sign at the front, with its length.
fn sign_at(text: &[u8]) -> Option<(Symbol, usize)>
    ensures sign { result ≡ signs.sign_at text.now }
    ensures within { IfSome result (λ found. (0 < found.1) × (found.1 ≤ length text.now)) }
{
    let [first, rest @ ..] = text else {
        return None;
    };
    if let [second, ..] = rest {
        if let Some(sign) = double_sign(*first, *second) {
            return Some((sign, 2));
        }
    }
    match single_sign(*first) {
        Some(sign) => Some((sign, 1)),
        None => None,
    }
}

fn reserved_word(word: &[u8]) -> Option<Symbol>
    ensures { result ≡ signs.reserved_word word.now }
{
    if word == b"in".as_slice() {
        Some(Symbol::In)
    } else if word == b"not".as_slice() {
        Some(Symbol::Not)
    } else if word == b"fixed".as_slice() {
        Some(Symbol::Fixed)
    } else if word == b"int".as_slice() {
        Some(Symbol::Int)
    } else if word == b"fma".as_slice() {
        Some(Symbol::Fma)
    } else if word == b"float".as_slice() {
        Some(Symbol::Float)
    } else if word == b"sqrt".as_slice() {
        Some(Symbol::Sqrt)
    } else {
        None
    }
}

fn word_kind(word: &[u8]) -> TokenKind
    ensures { result ≡ spec.word_kind (signs.reserved_word word.now) }
{
    match reserved_word(word) {
        Some(sign) => TokenKind::Sign(sign),
        None => TokenKind::Name,
    }
}

/// The token at the front, with its length.
#[tactic(auto, unfolding(crate::specs::Lex::front))]
pub fn front(text: &[u8]) -> Option<(TokenKind, usize)>
    ensures token { result ≡ spec.front text.now }
    ensures within { IfSome result (λ found. (0 < found.1) × (found.1 ≤ length text.now)) }
{
    if run_len(Run::Digit, text) > 0 {
        let len = literal_len(text);
        return if run_len(Run::Word, &text[len..]) > 0 {
            None
        } else {
            Some((TokenKind::Literal, len))
        };
    }
    let word = run_len(Run::Word, text);
    if word > 0 {
        return Some((word_kind(&text[..word]), word));
    }
    match sign_at(text) {
        Some((sign, len)) => Some((TokenKind::Sign(sign), len)),
        None => None,
    }
}

/// The text from a place on.
pub(crate) fn rest_at(text: &[u8], at: usize) -> &[u8]
    requires { at ≤ length text.now }
    ensures { result.now ≡ drop at text.now }
{
    &text[at..]
}

/// A text has one list of tokens, and one byte at most that begins none.
pub fn lexed_once()
    ensures { LexesOnce }
{}

/// Nothing is done. The clause tells a caller that each text has a list of tokens.
pub fn lexed_all()
    ensures { LexesAll }
{}

/// Nothing is done. The clause tells a caller that a text has no more tokens than bytes.
pub fn tokens_are_few()
    ensures { TokensAreFew }
{}
