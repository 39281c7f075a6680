//! The lines, words and parts of a text, from its front.

ghost use Rattle.std.specs.Prelude.{◌≡◌, ◌==◌, ◌+◌, ◌<◌, ℕ, not, [], ◌∷◌, length, IfSome, MatchOption};
ghost use Rattle.std.specs.List.{prefix_len};
ghost use Rattle.script_lang.specs.Words.{lines_of, words_of, IsFirstPart, is_blank, without_return};

/// The first line of a text that isn't empty, without its end, and what stands behind its end.
pub(crate) fn split_line(text: &[u8]) -> (&[u8], &[u8])
    requires { 0 < length text.now }
    ensures first { lines_of text.now ≡ result.0.now ∷ lines_of result.1.now }
    ensures shorter { length result.1.now < length text.now }
{
    let (line, behind) = text.split_at(plain_length(text));
    match behind.split_first() {
        Some((_, rest)) => (without_return(line), rest),
        None => (line, behind),
    }
}

/// How many bytes stand before the first LF, or in all.
fn plain_length(text: &[u8]) -> usize
    ensures { result ≡ prefix_len (λ c. not (c == 10)) text.now }
{
    text.iter().take_while(|byte| **byte != b'\n').count()
}

/// A line without the CR at its end.
fn without_return(line: &[u8]) -> &[u8]
    ensures { result.now ≡ without_return line.now }
{
    line.strip_suffix(b"\r").unwrap_or(line)
}

/// The first word of a line, and what stands behind it; `None` where there is none.
pub(crate) fn next_word(line: &[u8]) -> Option<(&[u8], &[u8])>
    ensures { MatchOption result (words_of line.now ≡ []) (λ x. words_of line.now ≡ x.0.now ∷ words_of x.1.now) }
{
    let (_, text) = line.split_at(blank_length(line));
    if text.is_empty() {
        return None;
    }
    Some(text.split_at(word_length(text)))
}

/// How many blanks stand first.
fn blank_length(text: &[u8]) -> usize
    ensures { result ≡ prefix_len is_blank text.now }
{
    text.iter().take_while(|byte| is_blank(**byte)).count()
}

/// How many bytes stand before the first blank.
fn word_length(text: &[u8]) -> usize
    ensures { result ≡ prefix_len (λ c. not (is_blank c)) text.now }
{
    text.iter().take_while(|byte| !is_blank(**byte)).count()
}

/// Whether a byte is a space or a tab.
fn is_blank(byte: u8) -> bool
    ensures { result ≡ is_blank byte }
{
    byte == b' ' || byte == b'\t'
}

/// The first part of a text, and what stands behind the separator after it, if there is one.
pub(crate) fn split_part(text: &[u8], separator: u8) -> (&[u8], Option<&[u8]>)
    ensures first { IsFirstPart separator text.now result.0.now result.1 }
    ensures shorter { IfSome result.1 (λ rest. length rest.now < length text.now) }
{
    let (part, behind) = text.split_at(part_length(text, separator));
    match behind.split_first() {
        Some((_, rest)) => (part, Some(rest)),
        None => (part, None),
    }
}

/// How many bytes stand before the first separator, or in all.
fn part_length(text: &[u8], separator: u8) -> usize
    ensures { result ≡ prefix_len (λ c. not (c == separator)) text.now }
{
    text.iter().take_while(|byte| **byte != separator).count()
}
