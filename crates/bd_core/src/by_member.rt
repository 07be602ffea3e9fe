// What a member of the sets gives by itself.
ghost use Rattle.std.specs.Prelude.{◌≡◌, ◌↔◌, IfOk, IsTrue, OnOk, Contains, true};
ghost use Rattle.lib_rows.specs.Classes.{class_name};
ghost use Rattle.lib_rows.specs.Rows.{IsRow};
ghost use Rattle.lib_rows.specs.declared.class.Builtin.TheVariants as builtins;
ghost use Rattle.bd_core.specs.Given.{HasInitialiser, initialiser};
ghost use Rattle.bd_core.specs.Rows.{gives_text, null_exceptions, index_exceptions};
ghost use Rattle.bd_core.specs.Rules.{FromMember};
ghost use Rattle.bd_core.specs.declared.member.Member.TheVariants as members;
ghost use Rattle.bd_core.specs.Calls.Adds.{Adds};
ghost use Rattle.bd_core.specs.Calls.Gives.{IsSuperGift, IsInitialiserGift, IsTextGift, IsRowGift, Exceptions};
ghost use Rattle.bd_core.specs.Loads.{given};

use crate::loaded::Loaded;
use crate::member::Member;
use crate::put::{put, put_initialised, put_known, put_under};
use cf_class::{code_in, member_in};
use hi_tree::{Classes, Up, has_flag};
use jv_base::{List, Mem, MethodId, Name};
use lib_rows::{Builtin, LibMethod, find_row};
use std::alloc::Global;

const STATIC: u16 = 0x0008;

fn put_supers(alloc: Global, loaded: &Loaded, class: &Name, out: &mut List<Member>) -> Mem<()>
    ensures { OnOk result (Adds (FromMember (given loaded.now) (members.Known class.now)) out.old out.new) }
{
    let names = loaded.classes().names_above(alloc, class, Up::Supertypes)?;
    put_known(out, names)
}

fn put_above(
    alloc: Global,
    loaded: &Loaded,
    class: &Name,
    above: &Name,
    out: &mut List<Member>,
) -> Mem<()>
    ensures { OnOk result (Adds (FromMember (given loaded.now) (members.Under class.now above.now)) out.old out.new) }
{
    let names = loaded.classes().names_above(alloc, above, Up::Supertypes)?;
    put_under(alloc, out, class, names)
}

fn put_made(alloc: Global, loaded: &Loaded, class: &Name, out: &mut List<Member>) -> Mem<()>
    ensures { OnOk result (Adds (FromMember (given loaded.now) (members.Made class.now)) out.old out.new) }
{
    let _given = loaded;
    put(out, Member::Known(class.copy(alloc)?))?;
    put(out, Member::Under(class.copy(alloc)?, class.copy(alloc)?))
}

// The method `<clinit>` of a class (JVM Specification SE 8, 2.9).
fn initialiser(alloc: Global, class: &Name) -> Mem<MethodId>
    ensures { IfOk result (λ m. m ≡ initialiser class.now) }
{
    Ok(MethodId {
        class: class.copy(alloc)?,
        name: Name::from_text(alloc, "<clinit>")?,
        desc: Name::from_text(alloc, "()V")?,
    })
}

// Whether the method `<clinit>` of a class is there, static and with code.
fn has_initialiser(classes: &Classes, method: &MethodId) -> bool
    requires { method.now ≡ initialiser method.now.class }
    ensures { IsTrue result ↔ HasInitialiser classes.now method.now.class }
{
    let Some(class) = classes.read(&method.class) else {
        return false;
    };
    match member_in(class.methods.as_slice(), &method.name, &method.desc) {
        Some(found) => {
            has_flag(found.flags, STATIC) && code_in(found.attributes.as_slice()).is_some()
        }
        None => false,
    }
}

fn put_initialiser(alloc: Global, loaded: &Loaded, class: &Name, out: &mut List<Member>) -> Mem<()>
    ensures { OnOk result (Adds (IsInitialiserGift (given loaded.now) class.now) out.old out.new) }
{
    let method = initialiser(alloc, class)?;
    if has_initialiser(loaded.classes(), &method) {
        put(out, Member::Method(method))?;
    }
    Ok(())
}

fn put_superclass(alloc: Global, loaded: &Loaded, class: &Name, out: &mut List<Member>) -> Mem<()>
    ensures { OnOk result (Adds (IsSuperGift (given loaded.now) class.now) out.old out.new) }
{
    let names = loaded
        .classes()
        .names_above(alloc, class, Up::Superclasses)?;
    put_initialised(out, names)
}

fn put_ready(alloc: Global, loaded: &Loaded, class: &Name, out: &mut List<Member>) -> Mem<()>
    ensures { OnOk result (Adds (FromMember (given loaded.now) (members.Initialised class.now)) out.old out.new) }
{
    put_superclass(alloc, loaded, class, out)?;
    put_initialiser(alloc, loaded, class, out)
}

fn gives_text(row: LibMethod) -> bool
    ensures { result ≡ gives_text row }
{
    matches!(
        row,
        LibMethod::StringTail
            | LibMethod::StringSubstring
            | LibMethod::StringConcat
            | LibMethod::StringOfInt
            | LibMethod::StringOfChar
            | LibMethod::StringOfBoolean
            | LibMethod::BuilderToString
    )
}

/// A built-in class has objects.
pub(crate) fn put_builtin(alloc: Global, class: Builtin, out: &mut List<Member>) -> Mem<()>
    ensures { OnOk result (Adds (λ x. x ≡ members.Made (class_name class)) out.old out.new) }
{
    put(out, Member::Made(Name::from_text(alloc, class.name())?))
}

fn put_text(alloc: Global, row: LibMethod, out: &mut List<Member>) -> Mem<()>
    ensures { OnOk result (Adds (IsTextGift row) out.old out.new) }
{
    if gives_text(row) {
        put_builtin(alloc, Builtin::String, out)?;
    }
    Ok(())
}

fn put_null_argument(alloc: Global, row: LibMethod, out: &mut List<Member>) -> Mem<()>
    ensures { OnOk result (Adds (Exceptions (null_exceptions row)) out.old out.new) }
{
    if row.null_argument().is_some() {
        put_builtin(alloc, Builtin::NullPointerException, out)?;
    }
    Ok(())
}

fn put_index(alloc: Global, row: LibMethod, out: &mut List<Member>) -> Mem<()>
    ensures { OnOk result (Adds (Exceptions (index_exceptions row)) out.old out.new) }
{
    if row.has_index() {
        put_builtin(alloc, Builtin::StringIndexOutOfBoundsException, out)?;
    }
    Ok(())
}

fn put_row(alloc: Global, method: &MethodId, out: &mut List<Member>) -> Mem<()>
    ensures { OnOk result (Adds (IsRowGift method.now) out.old out.new) }
{
    let Some(row) = find_row(method) else {
        return Ok(());
    };
    put_text(alloc, row, out)?;
    put_null_argument(alloc, row, out)?;
    put_index(alloc, row, out)
}

fn put_executed(
    alloc: Global,
    loaded: &Loaded,
    method: &MethodId,
    out: &mut List<Member>,
) -> Mem<()>
    ensures { OnOk result (Adds (FromMember (given loaded.now) (members.Method method.now)) out.old out.new) }
{
    let _given = loaded;
    put(out, Member::Known(method.class.copy(alloc)?))?;
    put_row(alloc, method, out)
}

/// All that a member gives by itself.
pub(crate) fn put_gifts(
    alloc: Global,
    loaded: &Loaded,
    member: &Member,
    out: &mut List<Member>,
) -> Mem<()>
    ensures { OnOk result (Adds (FromMember (given loaded.now) member.now) out.old out.new) }
{
    match member {
        Member::Known(class) => put_supers(alloc, loaded, class, out),
        Member::Method(method) => put_executed(alloc, loaded, method, out),
        Member::Made(class) => put_made(alloc, loaded, class, out),
        Member::Called(_, _) => Ok(()),
        Member::Initialised(class) => put_ready(alloc, loaded, class, out),
        Member::Under(class, above) => put_above(alloc, loaded, class, above, out),
    }
}
