// Whether the code of a method has shapes.
ghost use Rattle.std.specs.Prelude.{◌≡◌, IfOk, IfErr};
ghost use Rattle.ck_shapes.specs.declared.fault.ShapeFault.TheVariants.{BadCode};
ghost use Rattle.ck_shapes.specs.Rules.{shape_at};
ghost use Rattle.ck_shapes.specs.Methods.{MeetsMethodRules, HasNoShapes};

use crate::fault::ShapeFault;
use crate::find::{Shapes, find_shapes};
use crate::method::method_flow;
use cf_class::ClassFile;
use jv_base::MethodId;
use std::alloc::Global;

/// Shapes of the code of a method that meet the rules; the ones of which most is known. A method without code has none,
/// nor has one with a float or a double in its descriptor.
pub fn check_shapes(
    alloc: Global,
    class: &ClassFile,
    method: &MethodId,
) -> Result<Shapes, ShapeFault>
    ensures found { IfOk result (λ s. MeetsMethodRules class.now method.now (shape_at s.shapes)) }
    ensures bad_code { IfErr result (λ fault. fault ≡ BadCode → HasNoShapes class.now method.now) }
{
    let Some(flow) = method_flow(alloc, class, method)? else {
        return Err(ShapeFault::BadCode);
    };
    match find_shapes(alloc, &flow)? {
        Some(shapes) => Ok(shapes),
        None => Err(ShapeFault::BadCode),
    }
}
