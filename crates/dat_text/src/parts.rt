// The parts of a line, each read off the front of a text, behind any blanks.
ghost use Rattle.std.specs.Prelude.{◌≡◌, ◌≤◌, length};
ghost use Rattle.std.specs.Option.{option_map};
ghost use Rattle.std.specs.List.{prefix_len};
ghost use Rattle.std.specs.Char.{is_ascii_digit};
ghost use Rattle.dat_text.specs.Lines.{is_blank};
ghost use Rattle.dat_text.specs.Reading.{after_run, after_byte, after_word, number_at};

/// Whether the byte is a tab, a carriage return, the byte 26 or a space.
pub(crate) fn is_blank(byte: u8) -> bool
    ensures { result ≡ is_blank byte }
{
    byte == b'\t' || byte == b'\r' || byte == 26 || byte == b' '
}

fn blank_count(text: &[u8]) -> usize
    ensures count { result ≡ prefix_len is_blank text.now }
    ensures within { result ≤ length text.now }
{
    text.iter().take_while(|byte| is_blank(**byte)).count()
}

fn digit_count(text: &[u8]) -> usize
    ensures count { result ≡ prefix_len is_ascii_digit text.now }
    ensures within { result ≤ length text.now }
{
    text.iter().take_while(|byte| byte.is_ascii_digit()).count()
}

/// The text from its first byte on that is no blank.
pub(crate) fn skip_blanks(text: &[u8]) -> &[u8]
    ensures { result.now ≡ after_run is_blank text.now }
{
    &text[blank_count(text)..]
}

/// What follows the byte.
#[tactic(auto, unfolding(crate::specs::Reading::after_byte))]
pub(crate) fn after_byte(text: &[u8], byte: u8) -> Option<&[u8]>
    ensures { option_map (λ r. r.now) result ≡ after_byte byte text.now }
{
    match skip_blanks(text) {
        [first, rest @ ..] if *first == byte => Some(rest),
        _ => None,
    }
}

/// What follows the word, which may stand in any case.
#[tactic(auto, unfolding(crate::specs::Reading::after_word))]
pub(crate) fn after_word<'a>(text: &'a [u8], word: &[u8]) -> Option<&'a [u8]>
    ensures { option_map (λ r. r.now) result ≡ after_word word.now text.now }
{
    let text = skip_blanks(text);
    if text.len() < word.len() {
        return None;
    }
    let (front, rest) = text.split_at(word.len());
    if front.eq_ignore_ascii_case(word) {
        Some(rest)
    } else {
        None
    }
}

/// The digits of a number, and what follows them.
#[tactic(auto, unfolding(crate::specs::Reading::number_at))]
pub(crate) fn number_at(text: &[u8]) -> Option<(&[u8], &[u8])>
    ensures { option_map (λ p. (p.0.now, p.1.now)) result ≡ number_at text.now }
{
    let text = skip_blanks(text);
    let count = digit_count(text);
    if count == 0 {
        return None;
    }
    Some(text.split_at(count))
}
