// A class, and a variable of the program.
ghost use Rattle.std.specs.Prelude.{◌≡◌, ◌+◌, ◌++◌, IfOk, OnOk};
ghost use Rattle.st_base.specs.BuiltIns.{class_row};
ghost use Rattle.st_code.specs.Written.{indexed_by, named_class};
ghost use Rattle.st_code.specs.Definitions as defined;
ghost use Rattle.program_image.specs.Classes as seen;

use sqlite_items::Items;
use st_base::{BuiltInClass, OutOfMemory, Text};
use st_tree::units::{ClassUnit, Indexed};
use std::alloc::Global;

/// A class with all that its names stand for (ANSI NCITS 319, 3.3).
#[derive(Drop)]
pub struct Class {
    pub name: Text,
    /// The number of its superclass. `Object` has none.
    pub superclass: Option<u32>,
    /// Whether the file declares it.
    pub in_file: bool,
    /// Its own way to be indexed, or else that of its superclass.
    pub indexed: Indexed,
    /// How many named slots its instances have.
    pub slots: u32,
    /// The place of its first class instance variable among the program's variables.
    pub class_slots: u32,
    /// How many of the slots stand before those of `instance_names`.
    pub base: u32,
    /// The names of its instance variables, the inherited ones first.
    pub instance_names: Items<Text>,
    /// The names of its class instance variables, the inherited ones first.
    pub class_instance_names: Items<Text>,
    /// The names of its own class variables.
    pub class_names: Items<Text>,
    /// The names of the pools that it imports.
    pub pools: Items<Text>,
}

/// What a variable of the program is declared as.
#[derive(Drop)]
pub enum SharedVariable {
    /// A global variable or constant.
    Global(Text),
    /// A variable or constant of a pool.
    Pool { pool: Text, name: Text },
    /// A class variable.
    OfClass { class: u32, name: Text },
    /// A class instance variable, for the class that has it.
    OfClassInstance { class: u32, name: Text },
}

// Adds equal texts behind the others.
fn add_copies(all: &mut Items<Text>, texts: &[Text]) -> Result<(), OutOfMemory>
    ensures { OnOk result (all.new ≡ all.old ++ texts.now) }
{
    for text in texts {
        all.push(text.copy()?)?;
    }
    Ok(())
}

// Equal texts, those of the first list first.
fn joined(
    alloc: Global,
    first: &Items<Text>,
    second: &Items<Text>,
) -> Result<Items<Text>, OutOfMemory>
    ensures { IfOk result (λ all. all ≡ first.now ++ second.now) }
{
    let mut all = Items::new(alloc);
    add_copies(&mut all, first.as_slice())?;
    add_copies(&mut all, second.as_slice())?;
    Ok(all)
}

fn copies(alloc: Global, texts: &Items<Text>) -> Result<Items<Text>, OutOfMemory>
    ensures { IfOk result (λ all. all ≡ texts.now) }
{
    let mut all = Items::new(alloc);
    add_copies(&mut all, texts.as_slice())?;
    Ok(all)
}

// A sum that fits 32 bits. One that doesn't counts as want of memory.
fn sum(base: u32, more: usize) -> Result<u32, OutOfMemory>
    ensures { IfOk result (λ n. n ≡ base + more) }
{
    if more > (u32::MAX - base) as usize {
        return Err(OutOfMemory);
    }
    Ok(base + more as u32)
}

fn indexed_as(own: Indexed, above: Indexed) -> Indexed
    ensures { indexed_by result ≡ defined.indexed_as (indexed_by own) (indexed_by above) }
{
    match own {
        Indexed::None => above,
        Indexed::Object => Indexed::Object,
        Indexed::Byte => Indexed::Byte,
    }
}

impl Class {
    /// A class of the file over its superclass, where so many variables were declared before.
    pub(crate) fn over(
        alloc: Global,
        unit: &ClassUnit,
        superclass: u32,
        above: &Class,
        variables: u32,
    ) -> Result<Class, OutOfMemory>
        ensures { IfOk result (λ c. seen.seen_class c ≡ defined.class_over (named_class unit.now) superclass (seen.seen_class above.now) variables) }
    {
        let instance_names = joined(alloc, &above.instance_names, &unit.instance_names)?;
        let slots = sum(above.base, instance_names.len())?;
        let class_slots = sum(variables, unit.class_names.len())?;
        Ok(Class {
            name: unit.name.copy()?,
            superclass: Some(superclass),
            in_file: true,
            indexed: indexed_as(unit.indexed, above.indexed),
            slots,
            class_slots,
            base: above.base,
            instance_names,
            class_instance_names: joined(
                alloc,
                &above.class_instance_names,
                &unit.class_instance_names,
            )?,
            class_names: copies(alloc, &unit.class_names)?,
            pools: copies(alloc, &unit.pools)?,
        })
    }

    /// A class that every program has.
    pub(crate) fn built_in(alloc: Global, class: &BuiltInClass) -> Result<Class, OutOfMemory>
        ensures { IfOk result (λ c. seen.seen_class c ≡ seen.built_in_class (class_row class.now)) }
    {
        let name = class.name();
        let slots = slots_named(name);
        Ok(Class {
            name: Text::from_bytes(alloc, name.as_bytes())?,
            superclass: class.superclass(),
            in_file: false,
            indexed: Indexed::None,
            slots,
            class_slots: 0,
            base: slots,
            instance_names: Items::new(alloc),
            class_instance_names: Items::new(alloc),
            class_names: Items::new(alloc),
            pools: Items::new(alloc),
        })
    }
}

// How many named slots the instances of a built-in class have.
fn slots_named(name: &str) -> u32
    ensures { result ≡ seen.slots_named name.now }
{
    match name {
        "Exception" | "Error" | "Notification" | "Warning" => 1,
        "Fraction" | "Association" | "Message" | "ZeroDivide" => 2,
        "Interval" | "MessageNotUnderstood" => 3,
        _ => 0,
    }
}
