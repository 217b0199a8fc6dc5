//! Parts of written forms, of cursors and of plans.
ghost use Rattle.std.specs.Prelude.{◌≡◌, ◌<◌, ◌==◌, ℕ, List, position, IfSome, None, Some};
ghost use Rattle.std.specs.Fmt.{decimal};
ghost use Rattle.s39_set.specs.Texts.{IsCut};

/// Returns the parts of a text before and after the first `byte`, or `None` if the text doesn't have this byte.
pub fn cut_at(text: &[u8], byte: u8) -> Option<(&[u8], &[u8])>
    ensures parts { IfSome result (λ parts. IsCut text.now byte parts.0.now parts.1.now) }
    ensures none { result ≡ None → (front back : List ℕ) → ¬ IsCut text.now byte front back }
{
    let at = position_of(text, byte)?;
    Some((&text[..at], &text[at + 1..]))
}

/// The position of the first such byte.
fn position_of(text: &[u8], byte: u8) -> Option<usize>
    ensures { result ≡ position (λ b. b == byte) text.now }
{
    text.iter().position(|b| *b == byte)
}

/// The number from 0 to 99 of which a text is the decimal form, without leading zeros.
pub fn small_number(text: &[u8]) -> Option<u8>
    ensures below { IfSome result (λ n. n < 100) }
    ensures text { IfSome result (λ n. text.now ≡ decimal n) }
    ensures only { (n : ℕ) → n < 100 → text.now ≡ decimal n → result ≡ Some n }
{
    match text {
        [ones @ b'0'..=b'9'] => Some(*ones - b'0'),
        [tens @ b'1'..=b'9', ones @ b'0'..=b'9'] => Some(10 * (*tens - b'0') + (*ones - b'0')),
        _ => None,
    }
}
