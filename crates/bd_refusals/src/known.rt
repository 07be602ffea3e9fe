// What is known of the class under a name.
ghost use Rattle.std.specs.Prelude.{◌≡◌, ◌↔◌, Bool, Some};
ghost use Rattle.bd_refusals.specs.Suited.{HasKind};

use hi_tree::{Classes, has_flag};
use jv_base::Name;
use lib_rows::find_class;

const INTERFACE: u16 = 0x0200;

/// Whether a class that is known is an interface.
pub(crate) fn kind_of(classes: &Classes, name: &Name) -> Option<bool>
    ensures { (kind : Bool) → (result ≡ Some kind) ↔ HasKind classes.now name.now kind }
{
    if let Some(class) = find_class(name) {
        return Some(class.is_interface());
    }
    match classes.read(name) {
        Some(class) => Some(has_flag(class.flags, INTERFACE)),
        None => None,
    }
}
