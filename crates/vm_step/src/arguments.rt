// The arguments of calls.
ghost use Rattle.std.specs.Prelude.{◌≡◌, ◌+◌, ◌<◌, map, IfSome, IfNone, if◌then◌else◌};
ghost use Rattle.std.specs.List.{zip, list_all};
ghost use Rattle.std.specs.Option.{option_copied};
ghost use Rattle.vm_step.specs.Words.{word_of as word_type, has_word as specs_has_word};
ghost use Rattle.vm_step.specs.Arguments as specs;

use crate::word::{has_word, word_of};
use cf_code::Word;
use jv_base::{Desc, Ty, Value};

/// Whether the values are of the types, as far as there are both.
fn suit(types: &[Ty], values: &[Value]) -> bool
    ensures { result ≡ list_all (λ pair. specs_has_word (word_type pair.0) pair.1) (zip types.now values.now) }
{
    types
        .iter()
        .zip(values)
        .all(|(ty, value)| has_word(word_of(ty), *value))
}

/// Whether there is a value for each parameter, and of its type.
fn are_typed(types: &[Ty], values: &[Value]) -> bool
    ensures { result ≡ specs.have_words (map word_type types.now) values.now }
{
    types.len() == values.len() && suit(types, values)
}

/// The same with a receiver, which is the first value, or without.
fn are_arguments(receiver: bool, types: &[Ty], values: &[Value]) -> bool
    ensures { result ≡ specs.have_words (specs.words_taken receiver types.now) values.now }
{
    if !receiver {
        return are_typed(types, values);
    }
    match values {
        [first, rest @ ..] => has_word(Word::Reference, *first) && are_typed(types, rest),
        [] => false,
    }
}

/// The place of the lowest argument on a stack of this size, by the count of parameters.
fn lowest(receiver: bool, count: usize, size: usize) -> Option<usize>
    ensures there { IfSome result (λ place. place + (if receiver then count + 1 else count) ≡ size) }
    ensures none { IfNone result (size < (if receiver then count + 1 else count)) }
{
    let place = size.checked_sub(count)?;
    if receiver {
        place.checked_sub(1)
    } else {
        Some(place)
    }
}

/// The arguments of a call on top of a stack, the receiver first, if it has one (JVM Specification SE 8, 6.5).
pub fn call_arguments<'a>(receiver: bool, desc: &Desc, stack: &'a [Value]) -> Option<&'a [Value]>
    ensures { option_copied result ≡ specs.arguments receiver desc.now.params stack.now }
{
    let place = lowest(receiver, desc.params.length(), stack.len())?;
    let values = &stack[place..];
    if are_arguments(receiver, desc.params.as_slice(), values) {
        Some(values)
    } else {
        None
    }
}
