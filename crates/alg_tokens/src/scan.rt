//! Runs at the front of a text.

ghost use Rattle.std.specs.Prelude.{◌≡◌, ◌≤◌, ◌<◌, ◌<ℤ◌, length, drop, true, false, pos, MatchOption, MatchBool};
ghost use Rattle.std.specs.Char.{IsAsciiDigit, is_ascii_digit};
ghost use Rattle.std.specs.List.{prefix_len, AllByRecursion};
ghost use Rattle.std.specs.Str.{IsCharBoundary};
ghost use Rattle.alg_terms.specs.Limits.{MAX_LITERAL};
ghost use Rattle.alg_terms.specs.Names.{starts_name, continues_name};
ghost use Rattle.alg_tokens.specs.Pieces.{is_blank, value_of};
ghost use Rattle.alg_tokens.specs.Next.{FollowsBlanks};
ghost use Rattle.alg_tokens.specs.Runs.{IsRun, BeginsChar, BeginsNoBlank};

use alg_terms::GREATEST_LITERAL;

/// The place of the first byte that is no part of a blank or a comment.
pub fn blank_end(text: &str) -> usize
    ensures blanks { FollowsBlanks text.now (drop result text.now) }
    ensures no_more { BeginsNoBlank (drop result text.now) }
    ensures boundary { IsCharBoundary text.now result }
{
    let mut inside = false;
    'bytes: for (at, byte) in text.as_bytes().iter().enumerate() {
        if inside {
            inside = *byte != b'\n';
        } else if *byte == b'#' {
            inside = true;
        } else if !is_blank(*byte) {
            return at;
        }
    }
    text.len()
}

fn is_blank(byte: u8) -> bool
    ensures { result ≡ is_blank byte }
{
    matches!(byte, b' ' | b'\t' | b'\n' | b'\r')
}

/// How many bytes at the front are digits.
pub fn digit_len(bytes: &[u8]) -> usize
    ensures value { result ≡ prefix_len is_ascii_digit bytes.now }
    ensures within { result ≤ length bytes.now }
{
    bytes.iter().take_while(|b| b.is_ascii_digit()).count()
}

/// The value of digits, where it is at most the greatest literal.
pub fn value(digits: &[u8]) -> Option<i128>
    requires { AllByRecursion IsAsciiDigit digits.now }
    ensures { MatchOption result (MAX_LITERAL <ℤ pos (value_of digits.now)) (λ n. n ≡ pos (value_of digits.now)) }
{
    let max = GREATEST_LITERAL as u128;
    let mut value = 0;
    for digit in digits {
        if value > max / 10 {
            return None;
        }
        value = value * 10 + u128::from(*digit - b'0');
        if value > max {
            return None;
        }
    }
    Some(value as i128)
}

fn starts_name(c: char) -> bool
    ensures { result ≡ starts_name c }
{
    c == '_' || unicode_ident::is_xid_start(c)
}

fn continues_name(c: char) -> bool
    ensures { result ≡ continues_name c }
{
    c == '\'' || unicode_ident::is_xid_continue(c)
}

/// Whether a name begins the text.
pub fn starts_with_name(text: &str) -> bool
    requires { 0 < length text.now }
    ensures { BeginsChar starts_name result text.now }
{
    match text.chars().next() {
        Some(c) => starts_name(c),
        None => false,
    }
}

/// How many bytes of the front are characters that go on with a name.
pub fn name_len(text: &str) -> usize
    ensures { IsRun continues_name text.now result }
{
    match text.find(|c| !continues_name(c)) {
        Some(end) => end,
        None => text.len(),
    }
}
