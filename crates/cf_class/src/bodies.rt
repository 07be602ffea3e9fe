// The instructions of the Codes of a file, taken one after the other.
ghost use Rattle.std.specs.Prelude.{◌≡◌, ◌<◌, ◌∷◌, length, reverse};

use cf_code::Placed;
use jv_base::List;
use std::marker::Model;

/// The instructions of the Codes that are still to come, in file order.
#[derive(Debug, Drop)]
pub(crate) struct Bodies {
    /// The last one first.
    rest: List<List<Placed>>,
}

impl Model for Bodies {
    ghost use Rattle.std.specs.Prelude.{List as list_of, reverse};
    ghost use Rattle.cf_code.specs.declared.code.Placed.{Placed};

    ghost Value = { list_of (list_of Placed) };

    ghost view = { λ b. reverse b.rest };
}

impl Bodies {
    pub(crate) fn new(bodies: List<List<Placed>>) -> Bodies
        ensures { result ≡ bodies }
    {
        let mut rest = bodies;
        rest.reverse();
        Bodies { rest }
    }

    pub(crate) fn take(&mut self) -> List<Placed>
        requires { 0 < length self.old }
        ensures { self.old ≡ result ∷ self.new }
    {
        let Some(body) = self.rest.pop() else {
            unreachable!()
        };
        body
    }
}
