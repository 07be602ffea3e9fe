// Descriptors of methods of ints (JVM Specification SE 8, 4.3.3).
ghost use Rattle.std.specs.Prelude.{◌≡◌, ℕ, ◌≤◌, ◌↔◌, Bool, length, replicate, IsTrue, MatchOption};
ghost use Rattle.cf_thin.specs.Thin.{end_of, int_descriptor};

/// How many ints a method takes, and whether it gives one.
#[derive(Clone, Copy, Debug)]
pub struct Signature {
    pub params: u16,
    pub gives_int: bool,
}

fn gives_int(end: &[u8]) -> Option<bool>
    ensures { MatchOption result ((g : Bool) → end.now ≡ end_of g → ⊥) (λ g. end.now ≡ end_of g) }
{
    match end {
        [b')', b'I'] => Some(true),
        [b')', b'V'] => Some(false),
        _ => None,
    }
}

fn are_ints(params: &[u8]) -> bool
    ensures { IsTrue result ↔ (params.now ≡ replicate (length params.now) 73) }
{
    for letter in params {
        if *letter != b'I' {
            return false;
        }
    }
    true
}

/// The signature that a descriptor of ints spells, if at most `limit` of them are taken.
pub fn int_signature(descriptor: &[u8], limit: u16) -> Option<Signature>
    ensures { MatchOption result
        ((n : ℕ) (g : Bool) → n ≤ limit → descriptor.now ≡ int_descriptor n g → ⊥)
        (λ s. (s.params ≤ limit) × (descriptor.now ≡ int_descriptor s.params s.gives_int)) }
{
    let [b'(', rest @ ..] = descriptor else {
        return None;
    };
    if rest.len() < 2 || rest.len() - 2 > limit as usize {
        return None;
    }
    let (params, end) = rest.split_at(rest.len() - 2);
    let gives_int = gives_int(end)?;
    if !are_ints(params) {
        return None;
    }
    Some(Signature {
        params: params.len() as u16,
        gives_int,
    })
}
