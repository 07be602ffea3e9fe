// The superinterface methods of a class.
ghost use Rattle.std.specs.Prelude.{◌≡◌, ◌||◌, true, is_some, OnOk, IfOk, IfErr};
ghost use Rattle.hi_tree.specs.Calls.Steps.{known_of, above_name};
ghost use Rattle.hi_tree.specs.Calls.Walking.{mark_of, names_met, IsMet};
ghost use Rattle.hi_tree.specs.Calls.Choosing.{least_of, better_of, choice_of, text_of, offer_of, offered_of, weighed_of};
ghost use Rattle.hi_tree.specs.Calls.Choosing.{Shades, Looks, IsChosen};
ghost use Rattle.hi_tree.specs.Supers.{names_above};
ghost use Rattle.hi_tree.specs.Subtypes.{supertypes};
ghost use Rattle.hi_tree.specs.declared.known.Up.TheVariants.{Supertypes};
ghost use Rattle.hi_tree.specs.Faults.{IsWalkFault};
ghost use Rattle.hi_tree.specs.Superinterfaces.{whole_climb};
ghost use Rattle.hi_tree.specs.Walks.{IsClean};

use crate::declared::Declared;
use crate::fault::TreeFault;
use crate::known::{Above, KnownClass, Up};
use crate::sought::Sought;
use crate::table::Classes;
use crate::walk::{Walked, climb_from, set_mark};
use indexmap::IndexMap;
use jv_base::{List, Mem, MethodId, Name};
use std::alloc::Global;
use std::cmp::Ordering;

/// The interfaces that are chosen from those with a superinterface method: the first that is maximally specific and not
/// abstract, whether there is another, and the one of the least name.
#[derive(Clone, Copy, Debug)]
pub(crate) struct Chosen<'a> {
    pub default: Option<&'a str>,
    pub another: bool,
    pub least: Option<&'a str>,
}

/// The lesser of two names.
fn lesser<'a>(least: Option<&'a str>, name: &'a str) -> &'a str
    ensures { result.now ≡ least_of (text_of least.entry) name.now }
{
    match least {
        Some(least) => match name.as_bytes().cmp(least.as_bytes()) {
            Ordering::Less => name,
            Ordering::Equal | Ordering::Greater => least,
        },
        None => name,
    }
}

/// What is chosen with one more interface. It is free where it is maximally specific and not abstract.
fn better<'a>(chosen: Chosen<'a>, name: &'a str, free: bool) -> Chosen<'a>
    ensures { choice_of result ≡ better_of (choice_of chosen.entry) name.now free }
{
    let least = Some(lesser(chosen.least, name));
    match chosen.default {
        None => Chosen {
            default: if free { Some(name) } else { None },
            another: chosen.another,
            least,
        },
        Some(default) => Chosen {
            default: Some(default),
            another: free || chosen.another,
            least,
        },
    }
}

/// What is chosen with a class that was looked at, where it is an interface with a superinterface method. It is below
/// none of these where it is shaded.
fn weighed<'a>(
    chosen: Chosen<'a>,
    name: &'a str,
    offered: Option<Declared>,
    shaded: bool,
) -> Chosen<'a>
    ensures { choice_of result ≡ weighed_of (choice_of chosen.entry) name.now offered shaded }
{
    match offered {
        Some(declared) => better(chosen, name, !declared.is_abstract && !shaded),
        None => chosen,
    }
}

fn is_marked(marks: &IndexMap<&str, bool>, name: &str) -> bool
    ensures { result ≡ is_some (mark_of marks.now name.now) }
{
    match marks.get(&name) {
        Some(_) => true,
        None => false,
    }
}

/// Whether the names above a class are shaded: where it is, or is an interface with a superinterface method.
fn carries(shaded: bool, offered: Option<Declared>) -> bool
    ensures { result ≡ (shaded || is_some offered) }
{
    shaded || offered.is_some()
}

/// Shades the names directly above a class: none of them is maximally specific.
fn shade_above<'a>(shaded: &mut IndexMap<&'a str, bool>, class: KnownClass<'a>) -> Mem<()>
    ensures { OnOk result (Shades true (names_above Supertypes (known_of class.entry)) (mark_of shaded.old)
        (mark_of shaded.new)) }
{
    let mut place = 0;
    while let Some(above) = class.above(Up::Supertypes, place) {
        set_mark(shaded, above.text(), true)?;
        place += 1;
    }
    Ok(())
}

/// The method that an interface declares, if it is neither private nor static.
fn offer(class: KnownClass<'_>, name: &Name, desc: &Name) -> Option<Declared>
    ensures { result ≡ offer_of name.now desc.now (known_of class.entry) }
{
    if !class.is_interface() {
        return None;
    }
    let declared = class.declared(name, desc)?;
    if declared.is_virtual() {
        Some(declared)
    } else {
        None
    }
}

impl Classes {
    ghost use Rattle.hi_tree.specs.Calls.Steps.{above_name};

    /// The superinterface method of a class above `start`, if it is an interface with one.
    fn offered(&self, class: Above<'_>, start: &str, method: &MethodId) -> Option<Declared>
        ensures { result ≡ offered_of self.now start.now method.now.name method.now.desc (above_name class.entry) }
    {
        if class.text() == start {
            return None;
        }
        match self.known(class) {
            Some(known) => offer(known, &method.name, &method.desc),
            None => None,
        }
    }

    /// Shades the names directly above a class, if they are to be.
    fn shade<'a>(
        &'a self,
        shaded: &mut IndexMap<&'a str, bool>,
        class: Above<'a>,
        holds: bool,
    ) -> Mem<()>
        ensures { OnOk result (Shades holds (supertypes self.now (above_name class.entry)) (mark_of shaded.old)
            (mark_of shaded.new)) }
    {
        if !holds {
            return Ok(());
        }
        match self.known(class) {
            Some(known) => shade_above(shaded, known),
            None => Ok(()),
        }
    }

    /// Looks at a class above `start`.
    fn look<'a>(
        &'a self,
        shaded: &mut IndexMap<&'a str, bool>,
        chosen: Chosen<'a>,
        class: Above<'a>,
        start: &str,
        method: &MethodId,
    ) -> Mem<Chosen<'a>>
        ensures { IfOk result (λ new. Looks self.now start.now method.now.name method.now.desc (above_name class.entry)
            (mark_of shaded.old) (choice_of chosen.entry) (mark_of shaded.new) (choice_of new)) }
    {
        let name = class.text();
        let below = is_marked(shaded, name);
        let offered = self.offered(class, start, method);
        self.shade(shaded, class, carries(below, offered))?;
        Ok(weighed(chosen, name, offered, below))
    }

    /// What is chosen from the classes of a whole walk, those that are above others last.
    fn choose<'a>(
        &'a self,
        alloc: Global,
        met: List<Above<'a>>,
        start: &str,
        method: &MethodId,
    ) -> Mem<Chosen<'a>>
        requires { IsMet (whole_climb self.now) start.now (names_met met) }
        ensures { IfOk result (λ c. IsChosen self.now start.now method.now.name method.now.desc (choice_of c)) }
    {
        let mut met = met;
        let mut shaded = IndexMap::new(alloc);
        let mut chosen = Chosen {
            default: None,
            another: false,
            least: None,
        };
        while let Some(class) = met.pop() {
            chosen = self.look(&mut shaded, chosen, class, start, method)?;
        }
        Ok(chosen)
    }

    /// The interfaces that are chosen from those with a superinterface method of a class.
    pub(crate) fn inherited<'a>(
        &'a self,
        alloc: Global,
        class: Above<'a>,
        method: &MethodId,
    ) -> Result<Chosen<'a>, TreeFault>
        ensures clean { IfOk result (λ _. IsClean (whole_climb self.now) (above_name class.entry)) }
        ensures chosen { IfOk result (λ c. IsChosen self.now (above_name class.entry) method.now.name method.now.desc
            (choice_of c)) }
        ensures fault { IfErr result (IsWalkFault (whole_climb self.now) (above_name class.entry)) }
    {
        match climb_from(alloc, self, class, Up::Supertypes, Sought::Nothing)? {
            Walked::Clean(met) => Ok(self.choose(alloc, met, class.text(), method)?),
            Walked::Found(_) => unreachable!(),
        }
    }
}
