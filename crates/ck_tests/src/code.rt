// Code, written out: instructions with commas between them, each at the pc that is its number.
use ck_shapes::{
    Action, Effect, Flow, Handler, Limits, Locals, Move, Shape, Stack, Step, ValueType,
};
use jv_list::{List, Mem};
use std::alloc::Global;

/// The rows of a table: its lines, but for blank ones and those of remarks.
pub(crate) fn is_row(line: &str) -> bool {
    !line.trim().is_empty() && !line.trim().starts_with("//")
}

/// A cell of a row, by its number.
pub(crate) fn cell(row: &str, number: usize) -> &str {
    match row.split('|').nth(number) {
        Some(text) => text.trim(),
        None => "",
    }
}

/// A word of a text, by its number, as a number.
fn number(text: &str, place: usize) -> u16 {
    match text.split_whitespace().nth(place) {
        Some(word) => word.parse::<u16>().unwrap_or(0),
        None => 0,
    }
}

/// The numbers of a text.
pub(crate) fn numbers(alloc: Global, text: &str) -> Mem<List<u16>> {
    let mut numbers = List::new(alloc);
    for word in text.split_whitespace() {
        if let Ok(number) = word.parse::<u16>() {
            numbers.add(number)?;
        }
    }
    Ok(numbers)
}

/// The types of a text of letters.
fn types(alloc: Global, text: &str) -> Mem<List<ValueType>> {
    let mut types = List::new(alloc);
    for letter in text.chars() {
        match letter {
            'I' => types.add(ValueType::Int)?,
            'J' => types.add(ValueType::Long)?,
            'A' => types.add(ValueType::Reference)?,
            _ => {}
        }
    }
    Ok(types)
}

/// Locals of these types, one behind the other.
fn locals(alloc: Global, text: &str) -> Mem<List<Option<ValueType>>> {
    let mut locals = List::new(alloc);
    for of in types(alloc, text)?.as_slice() {
        locals.add(Some(*of))?;
        if *of == ValueType::Long {
            locals.add(None)?;
        }
    }
    Ok(locals)
}

fn replaces(alloc: Global, takes: &str, leaves: &str) -> Mem<Effect> {
    Ok(Effect::Replaces(types(alloc, takes)?, types(alloc, leaves)?))
}

fn moves(top: u8, under: u8, puts_below: bool, puts_above: bool) -> Effect {
    Effect::Moves(Move {
        top,
        under,
        puts_below,
        puts_above,
    })
}

/// The effect of an instruction that is named, with its local.
fn effect(alloc: Global, name: &str, index: u16) -> Mem<Effect> {
    match name {
        "iload" => Ok(Effect::Loads(ValueType::Int, index)),
        "lload" => Ok(Effect::Loads(ValueType::Long, index)),
        "aload" => Ok(Effect::Loads(ValueType::Reference, index)),
        "istore" => Ok(Effect::Stores(ValueType::Int, index)),
        "lstore" => Ok(Effect::Stores(ValueType::Long, index)),
        "astore" => Ok(Effect::Stores(ValueType::Reference, index)),
        "iinc" => Ok(Effect::Increments(index)),
        "pop" => Ok(moves(1, 0, false, false)),
        "pop2" => Ok(moves(2, 0, false, false)),
        "dup" => Ok(moves(1, 0, true, true)),
        "dup_x2" => Ok(moves(1, 2, true, true)),
        "dup2" => Ok(moves(2, 0, true, true)),
        "swap" => Ok(moves(1, 1, true, false)),
        "iconst" => replaces(alloc, "", "I"),
        "lconst" => replaces(alloc, "", "J"),
        "null" => replaces(alloc, "", "A"),
        "ladd" => replaces(alloc, "JJ", "J"),
        "ifeq" | "ireturn" => replaces(alloc, "I", ""),
        "lreturn" => replaces(alloc, "J", ""),
        "ifnull" | "areturn" | "athrow" => replaces(alloc, "A", ""),
        _ => replaces(alloc, "", ""),
    }
}

/// The action of an instruction: its name and its local, then behind `>` the pcs that can be next.
fn action(alloc: Global, text: &str) -> Mem<Action> {
    let name = text.split_whitespace().nth(0).unwrap_or("");
    let nexts = match text.split('>').nth(1) {
        Some(part) => numbers(alloc, part)?,
        None => List::new(alloc),
    };
    Ok(Action {
        effect: effect(alloc, name, number(text, 1))?,
        nexts,
    })
}

fn steps(alloc: Global, text: &str) -> Mem<List<Step>> {
    let mut steps = List::new(alloc);
    let mut pc: u16 = 0;
    for part in text.split(',') {
        let action = action(alloc, part)?;
        steps.add(Step {
            pc,
            action: Some(action),
        })?;
        pc = pc.saturating_add(1);
    }
    Ok(steps)
}

fn handlers(alloc: Global, text: &str) -> Mem<List<Handler>> {
    let mut handlers = List::new(alloc);
    for part in text.split(',') {
        if let [start, end, handler] = numbers(alloc, part)?.as_slice() {
            handlers.add(Handler {
                start: *start,
                end: *end,
                handler: *handler,
            })?;
        }
    }
    Ok(handlers)
}

/// The code of a row: max_stack and max_locals, the types of the parameters, the handlers, the instructions.
pub(crate) fn flow(alloc: Global, row: &str) -> Mem<Flow> {
    let limits = Limits {
        max_stack: number(cell(row, 0), 0),
        max_locals: number(cell(row, 0), 1),
    };
    let start = Shape {
        locals: Locals::new(alloc, locals(alloc, cell(row, 1))?.as_slice())?,
        stack: Stack::new(alloc),
    };
    Ok(Flow {
        steps: steps(alloc, cell(row, 3))?,
        handlers: handlers(alloc, cell(row, 2))?,
        limits,
        start,
    })
}
