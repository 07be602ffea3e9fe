// The order of the report's lines.
ghost use Rattle.std.specs.Prelude.{◌≡◌};
ghost use Rattle.jv_base.specs.Order.{method_cmp, goal_cmp};

use crate::{Goal, MethodId};
use std::cmp::Ordering;

fn compare_methods(a: &MethodId, b: &MethodId) -> Ordering
    ensures { result ≡ method_cmp a.now b.now }
{
    a.class
        .compare(&b.class)
        .then(a.name.compare(&b.name))
        .then(a.desc.compare(&b.desc))
}

/// By class, name and descriptor as bytes, then by pc, then by kind.
pub fn compare_goals(a: &Goal, b: &Goal) -> Ordering
    ensures { result ≡ goal_cmp a.now b.now }
{
    compare_methods(&a.site.method, &b.site.method)
        .then(a.site.pc.cmp(&b.site.pc))
        .then(a.kind.cmp(&b.kind))
}
