// Laws of growth, each a clause of a function without an effect.
ghost use Rattle.bb_gates.specs.Laws.{ExtendsIsConservative, ConservativeThrough, AddsThrough};

use cn_clauses::extension_laws;

/// Gates that are made one after the other.
pub fn growth_laws()
    ensures extends { ExtendsIsConservative }
    ensures through { ConservativeThrough }
    ensures adds { AddsThrough }
{
    extension_laws();
}
