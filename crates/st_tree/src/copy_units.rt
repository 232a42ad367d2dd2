// Deep copies of units and whole programs, places included.
ghost use Rattle.std.specs.Prelude.{◌≡◌, IfOk};

use crate::copy::copy_texts;
use crate::units::{Annotation, ClassUnit, Definition, Unit, UnitKind, UnitList};
use sqlite_items::Items;
use st_base::OutOfMemory;
use std::alloc::Global;

impl ClassUnit {
    /// An equal class definition.
    pub fn copy(&self, alloc: Global) -> Result<ClassUnit, OutOfMemory>
        ensures { IfOk result (λ c. c ≡ self.now) }
    {
        Ok(ClassUnit {
            name: self.name.copy()?,
            superclass: self.superclass.copy()?,
            indexed: self.indexed,
            instance_names: copy_texts(alloc, &self.instance_names)?,
            class_names: copy_texts(alloc, &self.class_names)?,
            pools: copy_texts(alloc, &self.pools)?,
            class_instance_names: copy_texts(alloc, &self.class_instance_names)?,
        })
    }
}

impl UnitKind {
    /// An equal kind, places included.
    pub fn copy(&self, alloc: Global) -> Result<UnitKind, OutOfMemory>
        ensures { IfOk result (λ k. k ≡ self.now) }
    {
        match self {
            UnitKind::Version(text) => Ok(UnitKind::Version(text.copy()?)),
            UnitKind::Class(class) => Ok(UnitKind::Class(class.copy(alloc)?)),
            UnitKind::GlobalVariable(name) => Ok(UnitKind::GlobalVariable(name.copy()?)),
            UnitKind::GlobalConstant(name) => Ok(UnitKind::GlobalConstant(name.copy()?)),
            UnitKind::Pool(name) => Ok(UnitKind::Pool(name.copy()?)),
            UnitKind::PoolVariable { pool, name } => Ok(UnitKind::PoolVariable {
                pool: pool.copy()?,
                name: name.copy()?,
            }),
            UnitKind::PoolConstant { pool, name } => Ok(UnitKind::PoolConstant {
                pool: pool.copy()?,
                name: name.copy()?,
            }),
            UnitKind::Initializer { target, body } => Ok(UnitKind::Initializer {
                target: target.copy()?,
                body: body.copy(alloc)?,
            }),
            UnitKind::PoolInitializer { pool, name, body } => Ok(UnitKind::PoolInitializer {
                pool: pool.copy()?,
                name: name.copy()?,
                body: body.copy(alloc)?,
            }),
            UnitKind::ProgramInitializer(body) => {
                Ok(UnitKind::ProgramInitializer(body.copy(alloc)?))
            }
            UnitKind::Method { class, method } => Ok(UnitKind::Method {
                class: class.copy()?,
                method: method.copy(alloc)?,
            }),
            UnitKind::ClassMethod { class, method } => Ok(UnitKind::ClassMethod {
                class: class.copy()?,
                method: method.copy(alloc)?,
            }),
            UnitKind::Comment(texts) => Ok(UnitKind::Comment(copy_texts(alloc, texts)?)),
        }
    }
}

impl Annotation {
    /// An equal annotation.
    pub fn copy(&self) -> Result<Annotation, OutOfMemory>
        ensures { IfOk result (λ a. a ≡ self.now) }
    {
        Ok(Annotation {
            key: self.key.copy()?,
            value: self.value.copy()?,
        })
    }
}

fn copy_annotations(
    alloc: Global,
    annotations: &Items<Annotation>,
) -> Result<Items<Annotation>, OutOfMemory>
    ensures { IfOk result (λ xs. xs ≡ annotations.now) }
{
    let mut all = Items::new(alloc);
    for annotation in annotations.as_slice() {
        all.push(annotation.copy()?)?;
    }
    Ok(all)
}

impl Unit {
    /// An equal unit, its annotations and all places included.
    pub fn copy(&self, alloc: Global) -> Result<Unit, OutOfMemory>
        ensures { IfOk result (λ u. u ≡ self.now) }
    {
        Ok(Unit {
            kind: self.kind.copy(alloc)?,
            annotations: copy_annotations(alloc, &self.annotations)?,
        })
    }
}

impl UnitList {
    /// Equal units in the same order.
    pub fn copy(&self) -> Result<UnitList, OutOfMemory>
        ensures { IfOk result (λ l. l ≡ self.now) }
    {
        let alloc = self.allocator();
        let mut all = UnitList::new(alloc);
        for unit in self.as_slice() {
            all.push(unit.copy(alloc)?)?;
        }
        Ok(all)
    }
}

impl Definition {
    /// An equal program, all places included.
    pub fn copy(&self) -> Result<Definition, OutOfMemory>
        ensures { IfOk result (λ d. d ≡ self.now) }
    {
        Ok(Definition {
            units: self.units.copy()?,
        })
    }
}
