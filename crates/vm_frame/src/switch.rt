// The switches.
ghost use Rattle.std.specs.Prelude.{◌≡◌};
ghost use Rattle.vm_frame.specs.Jumps as specs;

use crate::effect::FrameEffect;
use crate::operand::{int_in, top};
use cf_code::{Case, LookupSwitch, TableSwitch};
use jv_base::Value;

/// The target at an index, which may be outside.
fn target_at(targets: &[u16], index: i64) -> Option<u16>
    ensures { result ≡ specs.target_at targets.now index }
{
    if index < 0 {
        None
    } else {
        targets.get(index as usize).copied()
    }
}

fn table_target(switch: &TableSwitch, key: i32) -> u16
    ensures { result ≡ specs.table_target switch.now key }
{
    let index = i64::from(key) - i64::from(switch.low);
    match target_at(switch.targets.as_slice(), index) {
        Some(target) => target,
        None => switch.default,
    }
}

/// The target of the first case with a key.
fn case_target(cases: &[Case], key: i32) -> Option<u16>
    ensures { result ≡ specs.case_target cases.now key }
{
    cases
        .iter()
        .find(|case| case.key == key)
        .map(|case| case.target)
}

fn lookup_target(switch: &LookupSwitch, key: i32) -> u16
    ensures { result ≡ specs.lookup_target switch.now key }
{
    match case_target(switch.cases.as_slice(), key) {
        Some(target) => target,
        None => switch.default,
    }
}

/// What a tableswitch does (JVM Specification SE 8, 6.5).
pub fn table_effect(switch: &TableSwitch, stack: &[Value]) -> FrameEffect
    ensures { result ≡ specs.table_effect switch.now stack.now }
{
    match int_in(top(stack)) {
        Some(key) => FrameEffect::Jumps(1, table_target(switch, key)),
        None => FrameEffect::Sticks,
    }
}

/// What a lookupswitch does (JVM Specification SE 8, 6.5).
pub fn lookup_effect(switch: &LookupSwitch, stack: &[Value]) -> FrameEffect
    ensures { result ≡ specs.lookup_effect switch.now stack.now }
{
    match int_in(top(stack)) {
        Some(key) => FrameEffect::Jumps(1, lookup_target(switch, key)),
        None => FrameEffect::Sticks,
    }
}
