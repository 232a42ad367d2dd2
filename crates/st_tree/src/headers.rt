// What the elements of an interchange file are that aren't texts of methods or bodies (ANSI NCITS 319, 4.1).
use crate::units::{Annotation, UnitKind};
use st_base::Text;

/// The kinds of elements, which their first two tokens tell apart.
#[derive(Clone, Copy, Debug, PartialEq, Eq)]
pub enum Row {
    /// `Smalltalk interchangeVersion: ..`
    Version,
    /// `Class named: ..`
    Class,
    /// `Global variable: ..`
    GlobalVariable,
    /// `Global constant: ..`
    GlobalConstant,
    /// `Pool named: ..`
    Pool,
    /// `P variable: ..`
    PoolVariable,
    /// `P constant: ..`
    PoolConstant,
    /// `P initializerFor: ..`
    PoolInitializer,
    /// `Global initializer`
    ProgramInitializer,
    /// `X initializer`
    Initializer,
    /// `A method`
    Method,
    /// `A classMethod`
    ClassMethod,
    /// `Annotation key: ..`
    Annotation,
}

/// What the text behind a header is for.
#[derive(Drop)]
pub enum Target {
    /// The body that initializes a class, or a global variable or constant.
    Initializer(Text),
    /// The body that initializes a pool's variable or constant.
    PoolInitializer { pool: Text, name: Text },
    /// A body that the program runs where it stands in the file.
    ProgramInitializer,
    /// A method of a class's instances.
    Method(Text),
    /// A method of a class itself.
    ClassMethod(Text),
}

/// What an element says.
#[derive(Drop)]
pub enum Header {
    /// A whole unit.
    Whole(UnitKind),
    /// The beginning of a unit whose text is the next element.
    Awaits(Target),
    /// An annotation of the unit before.
    Annotates(Annotation),
}
