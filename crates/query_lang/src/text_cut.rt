//! Texts cut into lines, words and parts.

ghost use Rattle.std.specs.Prelude.{◌≡◌, ◌≢◌, ◌+◌, ◌≤◌, ◌<◌, ◌∷◌, [], ◌==◌, length, take, drop, position, nat_lt, MatchOption, MatchBool, IfSome, None, Some, get_or, false};
ghost use Rattle.std.specs.List.{position_or_len, slice_split, before_first, after_first};
ghost use Rattle.std.specs.Str.{bytes_eq};
ghost use Rattle.dn_formats.specs.Decimal.{is_dot};
ghost use Rattle.dn_formats.specs.QueryWords.{is_comma};
ghost use Rattle.dn_formats.specs.ScriptText.{is_gap, is_line_feed, words_of, lines_of, begins_with};

/// Whether a byte parts words: space, tab or carriage return.
fn parts_words(byte: u8) -> bool
    ensures { result ≡ is_gap byte }
{
    byte == b' ' || byte == b'\t' || byte == b'\r'
}

/// Whether two texts are the same.
pub fn is_same(text: &[u8], other: &[u8]) -> bool
    ensures { result ≡ bytes_eq text.now other.now }
{
    text == other
}

/// Whether a text's first byte is this one.
pub fn has_first(text: &[u8], byte: u8) -> bool
    ensures { result ≡ begins_with byte text.now }
{
    match text {
        [] => false,
        [first, ..] => *first == byte,
    }
}

/// What stands before a place and what stands after it, the byte there left out.
fn cut_at(text: &[u8], place: usize) -> (&[u8], &[u8])
    requires { place ≤ length text.now }
    ensures front { result.0.now ≡ take place text.now }
    ensures back { result.1.now ≡ drop (place + 1) text.now }
{
    let (front, back) = text.split_at(place);
    match back {
        [] => (front, back),
        [_, rest @ ..] => (front, rest),
    }
}

/// The place of the first line feed.
fn first_line_feed(text: &[u8]) -> Option<usize>
    ensures { result ≡ position is_line_feed text.now }
{
    text.iter().position(|byte| *byte == b'\n')
}

/// The place of the first line feed, or the length.
#[tactic(auto, using(crate::proofs::Cuts::place_or_length))]
fn line_end(text: &[u8]) -> usize
    ensures place { result ≡ position_or_len is_line_feed text.now }
    ensures within { result ≤ length text.now }
{
    first_line_feed(text).unwrap_or(text.len())
}

/// The place of the first byte that parts words.
fn first_gap(text: &[u8]) -> Option<usize>
    ensures { result ≡ position is_gap text.now }
{
    text.iter().position(|byte| parts_words(*byte))
}

/// The place of the first byte that parts words, or the length.
#[tactic(auto, using(crate::proofs::Cuts::place_or_length))]
fn word_end(text: &[u8]) -> usize
    ensures place { result ≡ position_or_len is_gap text.now }
    ensures within { result ≤ length text.now }
{
    first_gap(text).unwrap_or(text.len())
}

/// The place of the first dot.
fn first_dot(text: &[u8]) -> Option<usize>
    ensures { result ≡ position is_dot text.now }
{
    text.iter().position(|byte| *byte == b'.')
}

/// The place of the first dot, or the length.
#[tactic(auto, using(crate::proofs::Cuts::place_or_length))]
fn dot_place(text: &[u8]) -> usize
    ensures place { result ≡ position_or_len is_dot text.now }
    ensures within { result ≤ length text.now }
{
    first_dot(text).unwrap_or(text.len())
}

/// The place of the first comma.
fn first_comma(text: &[u8]) -> Option<usize>
    ensures { result ≡ position is_comma text.now }
{
    text.iter().position(|byte| *byte == b',')
}

/// The place of the first comma, or the length.
#[tactic(auto, using(crate::proofs::Cuts::place_or_length))]
fn comma_place(text: &[u8]) -> usize
    ensures place { result ≡ position_or_len is_comma text.now }
    ensures within { result ≤ length text.now }
{
    first_comma(text).unwrap_or(text.len())
}

/// The first line of a text, and the text after it.
pub fn first_line(text: &[u8]) -> (&[u8], &[u8])
    requires { 0 < length text.now }
    ensures lines { lines_of text.now ≡ result.0.now ∷ lines_of result.1.now }
    ensures shorter { length result.1.now < length text.now }
{
    let end = line_end(text);
    cut_at(text, end)
}

/// A line without what parts words at its front.
fn skip_gaps(line: &[u8]) -> &[u8]
    ensures words { words_of result.now ≡ words_of line.now }
    ensures within { length result.now ≤ length line.now }
    ensures start { 0 < length result.now → is_gap (get_or result.now 0 0) ≡ false }
{
    let mut rest = line;
    while let [first, after @ ..] = rest {
        if !parts_words(*first) {
            return rest;
        }
        rest = after;
    }
    rest
}

/// The first word of a line and what stands after it, or nothing where the line has no word.
pub fn next_word(line: &[u8]) -> Option<(&[u8], &[u8])>
    ensures words { MatchOption result (words_of line.now ≡ []) (λ p. words_of line.now ≡ p.0.now ∷ words_of p.1.now) }
    ensures word { IfSome result (λ p. length p.0.now ≤ length line.now) }
    ensures rest { IfSome result (λ p. length p.1.now ≤ length line.now) }
{
    let rest = skip_gaps(line);
    if rest.is_empty() {
        return None;
    }
    let end = word_end(rest);
    Some(cut_at(rest, end))
}

/// Whether a text has no word.
pub fn is_blank(text: &[u8]) -> bool
    ensures { MatchBool result (words_of text.now ≡ []) (words_of text.now ≢ []) }
{
    next_word(text).is_none()
}

/// The word of a text that has just one.
pub fn one_word(text: &[u8]) -> Option<&[u8]>
    ensures { MatchOption result (length (words_of text.now) ≢ 1) (λ word. words_of text.now ≡ word.now ∷ []) }
{
    let (word, rest) = next_word(text)?;
    match next_word(rest) {
        Some((_, _)) => None,
        None => Some(word),
    }
}

/// The two words of a text that has just two.
pub fn two_words(text: &[u8]) -> Option<(&[u8], &[u8])>
    ensures { MatchOption result (length (words_of text.now) ≢ 2) (λ p. words_of text.now ≡ p.0.now ∷ p.1.now ∷ []) }
{
    let (first, rest) = next_word(text)?;
    let second = one_word(rest)?;
    Some((first, second))
}

/// What stands before the first dot and what stands after it, or nothing where there is no dot.
pub fn split_at_dot(text: &[u8]) -> Option<(&[u8], &[u8])>
    ensures { MatchOption result (slice_split is_dot text.now ≡ text.now ∷ []) (λ p. slice_split is_dot text.now ≡ p.0.now ∷ slice_split is_dot p.1.now) }
{
    let place = dot_place(text);
    if place == text.len() {
        return None;
    }
    Some(cut_at(text, place))
}

/// What stands before the first comma and what stands after it, or nothing where there is no comma.
pub fn split_at_comma(text: &[u8]) -> Option<(&[u8], &[u8])>
    ensures parts { MatchOption result (slice_split is_comma text.now ≡ text.now ∷ []) (λ p. slice_split is_comma text.now ≡ p.0.now ∷ slice_split is_comma p.1.now) }
    ensures shorter { IfSome result (λ p. length p.1.now < length text.now) }
{
    let place = comma_place(text);
    if place == text.len() {
        return None;
    }
    Some(cut_at(text, place))
}
