// Laws of the definitions, each a clause of a function without an effect.
ghost use Rattle.bb_terms.specs.Laws.{EmptyIsTable, EmptyIsExact, ExactThrough, KeepsThrough, OnceThrough, ShowsSome, UnitsBlast, TableLater, ExactLater};

use cn_clauses::extension_laws;
use tm_terms::{growth_laws, term_laws};

/// Formulas and tables that `blast` fills, from empty ones to those with unit clauses.
pub fn blasting_laws()
    ensures table { EmptyIsTable }
    ensures exact { EmptyIsExact }
    ensures through { ExactThrough }
    ensures keeps_through { KeepsThrough }
    ensures once_through { OnceThrough }
    ensures shows { ShowsSome }
    ensures units { UnitsBlast }
    ensures table_later { TableLater }
    ensures exact_later { ExactLater }
{
    extension_laws();
    term_laws();
    growth_laws();
}
