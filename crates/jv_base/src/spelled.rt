// Names and descriptors with their escapes.
ghost use Rattle.std.specs.Prelude.{◌≡◌, ℕ, ◌+◌, ◌^◌, ◌<◌, ◌≤◌, ◌++◌, List, Some, None, length, IfSome, IfNone, IfOk};
ghost use Rattle.std.specs.Char.{IsScalar};
ghost use Rattle.std.specs.Str.{IsUtf8};
ghost use Rattle.jv_base.specs.Forms.{IsOfForm, IsSpelled};
ghost use Rattle.jv_base.specs.Calls.Progress.{step};
ghost use Rattle.jv_base.specs.Calls.Fronts.{IsLongestFront, LeavesAt};
ghost use Rattle.jv_base.specs.Spelling.{character_text, name_text};

use crate::escaped::escape_front;
use crate::form::{Form, Progress, is_of_form, start_of, step, takes_names};
use crate::reading::{character_of, name_of};
use crate::{Name, TextFault};
use std::alloc::Global;

// What the next character of a text makes of the progress, and what follows it.
fn next_of(progress: Progress, text: &[u8]) -> Option<(Progress, &[u8])>
    ensures found { IfSome result (λ r. (c : ℕ) × IsScalar c × (text.now ≡ character_text c ++ r.1.now) × (step progress c ≡ Some r.0)) }
    ensures none { IfNone result ((c : ℕ) (rest : List ℕ) → IsScalar c → text.now ≡ character_text c ++ rest → step progress c ≡ None) }
    ensures shorter { IfSome result (λ r. length r.1.now < length text.now) }
{
    let (c, after) = character_of(text)?;
    let next = step(progress, c)?;
    Some((next, after))
}

/// The length of the longest prefix that begins the text of a name of a form.
pub(crate) fn spelled_front(form: Form, text: &[u8]) -> usize
    ensures longest { IsLongestFront (IsSpelled form) text.now result }
    ensures within { result ≤ length text.now }
{
    let mut progress = start_of(form);
    let mut rest = text;
    while let Some((next, after)) = next_of(progress, rest) {
        progress = next;
        rest = after;
    }
    let read = text.len() - rest.len();
    if takes_names(progress) {
        read + escape_front(rest)
    } else {
        read
    }
}

/// The name that a text spells. The place is that of the text in a longer one.
pub(crate) fn part_of(alloc: Global, form: Form, text: &[u8], place: u64) -> Result<Name, TextFault>
    requires { place + length text.now < 2 ^ 64 }
    ensures found { IfOk result (λ n. IsUtf8 n × IsOfForm form n × (text.now ≡ name_text n)) }
    ensures fault { (at : ℕ) → result ≡ Err (TextFault.Bad at) → LeavesAt (IsSpelled form) text.now place at }
{
    match name_of(alloc, text)? {
        Some(name) if is_of_form(form, name.as_str().as_bytes()) => Ok(name),
        _ => Err(TextFault::Bad(place + spelled_front(form, text) as u64)),
    }
}
