// A text in two, at a mark.
ghost use Rattle.std.specs.Prelude.{◌≡◌, ◌≢◌, ℕ, ◌+◌, List, ◌∷◌, ◌++◌, length, All, IfSome, IfNone};

/// The texts before and after the first byte that is the mark.
pub(crate) fn cut(text: &[u8], mark: u8) -> Option<(&[u8], &[u8])>
    ensures parts { IfSome result (λ r. text.now ≡ r.0.now ++ mark ∷ r.1.now) }
    ensures first { IfSome result (λ r. All (λ b. b ≢ mark) r.0.now) }
    ensures none { IfNone result (All (λ b. b ≢ mark) text.now) }
    ensures lengths { IfSome result (λ r. length r.0.now + length r.1.now + 1 ≡ length text.now) }
{
    let at = text.iter().position(|b| *b == mark)?;
    Some((&text[..at], &text[at + 1..]))
}

/// What follows the first byte, where it is this one.
pub(crate) fn after_byte(text: &[u8], first: u8) -> Option<&[u8]>
    ensures found { IfSome result (λ rest. text.now ≡ first ∷ rest.now) }
    ensures none { IfNone result ((rest : List ℕ) → text.now ≢ first ∷ rest) }
{
    text.strip_prefix(&[first])
}
