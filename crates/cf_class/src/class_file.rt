// A class file as a value (JVM Specification SE 8, 4.1).
ghost use Rattle.std.specs.Prelude.{List as list_of, map, IfOk, IfErr};
ghost use Rattle.std.specs.List.{AllZip};
ghost use Rattle.cf_structure.specs.ClassFile.{Names};
ghost use Rattle.cf_structure.specs.Views.{class_of, file_of};
ghost use Rattle.cf_judge.specs.Texts.{AreTexts};
ghost use Rattle.cf_bodies.specs.Passes.{IsFaultOf};
ghost use Rattle.cf_class.specs.Content.{IsClassNamed, IsContent, IsClass, HasFile};
ghost use Rattle.cf_class.specs.Calls.Contents.{AreNames, HasContent, HaveContent, HaveBodies, class_codes};

use crate::attribute::{Attribute, attribute_list};
use crate::bodies::Bodies;
use crate::member::{Member, member_list};
use crate::named::{Named, PoolTexts, class_named};
use cf_bodies::{judge_bodies, one_file};
use cf_code::Placed;
use cf_judge::{Text, form_decided, judge, plain_class_decided};
use cf_pool::Pool;
use cf_structure::{ClassFault, Structure, read_structure};
use jv_base::{List, Mem};
use std::alloc::Global;

/// A class file. Its pool has what stands at each index, 0 too.
#[derive(Debug, Drop)]
pub struct ClassFile {
    pub minor: u16,
    pub major: u16,
    pub pool: Pool,
    pub flags: u16,
    pub this_class: Named,
    pub super_class: Named,
    pub interfaces: List<Named>,
    pub fields: List<Member>,
    pub methods: List<Member>,
    pub attributes: List<Attribute>,
}

fn interface_list(alloc: Global, names: &PoolTexts<'_>, indices: &[u16]) -> Mem<List<Named>>
    requires names { AreNames names.now }
    requires content { HaveContent (IsClassNamed names.now.pool.now) indices.now }
    ensures { IfOk result (λ made. AllZip (IsClassNamed names.now.pool.now) indices.now made) }
{
    let mut made = List::with_capacity(alloc, indices.len())?;
    for index in indices {
        made.add(class_named(alloc, names, *index)?)?;
    }
    Ok(made)
}

/// The class file that a structure stands for. The texts are those of its pool, and the bodies the instructions of its Codes, in
/// file order.
fn class_content(
    alloc: Global,
    structure: Structure<'_>,
    texts: &[Option<Text>],
    bodies: List<List<Placed>>,
) -> Mem<ClassFile>
    requires texts { AreTexts structure.pool.entries texts.now }
    requires content { HasContent IsContent (file_of structure) }
    requires bodies { HaveBodies (class_codes (class_of structure.class)) bodies }
    ensures { IfOk result (λ c. IsContent (file_of structure.entry) c) }
{
    let Structure {
        version,
        pool,
        class,
    } = structure;
    let names = PoolTexts {
        pool: pool.entries.as_slice(),
        texts,
    };
    let mut bodies = Bodies::new(bodies);
    let this_class = class_named(alloc, &names, class.this_class)?;
    let super_class = class_named(alloc, &names, class.super_class)?;
    let interfaces = interface_list(alloc, &names, class.interfaces.as_slice())?;
    let fields = member_list(alloc, &names, &mut bodies, class.fields.as_slice())?;
    let methods = member_list(alloc, &names, &mut bodies, class.methods.as_slice())?;
    let attributes = attribute_list(alloc, &names, &mut bodies, class.attributes.as_slice())?;
    Ok(ClassFile {
        minor: version.minor,
        major: version.major,
        pool,
        flags: class.flags,
        this_class,
        super_class,
        interfaces,
        fields,
        methods,
        attributes,
    })
}

/// The class file that the bytes are. The fault is the first one of its structure, else of its names, descriptors and indices,
/// else of the code of its methods: a place in bytes from the start, and the word for what is wrong there.
pub fn read_class(alloc: Global, bytes: &[u8]) -> Result<ClassFile, ClassFault>
    ensures found { IfOk result (λ c. IsClass bytes.now c) }
    ensures file { IfOk result (λ c. HasFile c) }
    ensures fault { IfErr result (Names (IsFaultOf bytes.now)) }
    ensures outside { IfErr result (Names (λ _. (c : ClassFile) → IsClass bytes.now c → ⊥)) }
{
    form_decided();
    plain_class_decided();
    one_file();
    let structure = read_structure(alloc, bytes)?;
    let texts = judge(alloc, &structure)?;
    let bodies = judge_bodies(alloc, &structure, texts.as_slice())?;
    let class = class_content(alloc, structure, texts.as_slice(), bodies)?;
    Ok(class)
}
