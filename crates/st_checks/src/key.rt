// Keys: what one unit declares or defines.
ghost use Rattle.std.specs.Prelude.{◌≡◌, []};
ghost use Rattle.std.specs.Option.{option_map};
ghost use Rattle.st_checks.specs.Keys.{key, key_of, method_sort, text_key};

use st_base::MethodSide;
use st_tree::units::UnitKind;

/// The sorts of what a unit declares or defines.
#[derive(Clone, Copy, Debug, PartialEq, Eq, Hash)]
pub(crate) enum Sort {
    Class,
    Global,
    Pool,
    PoolName,
    Method,
    ClassMethod,
    Initializer,
    PoolInitializer,
}

/// What a unit declares or defines: a name, with the class or pool that it belongs to where there is one.
#[derive(Clone, Copy, Debug, PartialEq, Eq, Hash)]
pub(crate) struct Key<'a> {
    sort: Sort,
    owner: &'a [u8],
    name: &'a [u8],
}

impl<'a> Key<'a> {
    fn new(sort: Sort, owner: &'a [u8], name: &'a [u8]) -> Key<'a>
        ensures { text_key result ≡ key sort owner.now name.now }
    {
        Key { sort, owner, name }
    }

    fn alone(sort: Sort, name: &'a [u8]) -> Key<'a>
        ensures { text_key result ≡ key sort [] name.now }
    {
        Key::new(sort, b"", name)
    }

    pub(crate) fn class(name: &'a [u8]) -> Key<'a>
        ensures { text_key result ≡ key Sort.Class [] name.now }
    {
        Key::alone(Sort::Class, name)
    }

    pub(crate) fn global(name: &'a [u8]) -> Key<'a>
        ensures { text_key result ≡ key Sort.Global [] name.now }
    {
        Key::alone(Sort::Global, name)
    }

    pub(crate) fn pool(name: &'a [u8]) -> Key<'a>
        ensures { text_key result ≡ key Sort.Pool [] name.now }
    {
        Key::alone(Sort::Pool, name)
    }

    /// A variable or constant of a pool.
    pub(crate) fn in_pool(pool: &'a [u8], name: &'a [u8]) -> Key<'a>
        ensures { text_key result ≡ key Sort.PoolName pool.now name.now }
    {
        Key::new(Sort::PoolName, pool, name)
    }

    pub(crate) fn method(class: &'a [u8], side: MethodSide, selector: &'a [u8]) -> Key<'a>
        ensures { text_key result ≡ key (method_sort side) class.now selector.now }
    {
        match side {
            MethodSide::Instance => Key::new(Sort::Method, class, selector),
            MethodSide::Class => Key::new(Sort::ClassMethod, class, selector),
        }
    }

    pub(crate) fn initializer(target: &'a [u8]) -> Key<'a>
        ensures { text_key result ≡ key Sort.Initializer [] target.now }
    {
        Key::alone(Sort::Initializer, target)
    }

    pub(crate) fn pool_initializer(pool: &'a [u8], name: &'a [u8]) -> Key<'a>
        ensures { text_key result ≡ key Sort.PoolInitializer pool.now name.now }
    {
        Key::new(Sort::PoolInitializer, pool, name)
    }

    /// The key of what a unit of this kind declares or defines.
    pub(crate) fn of_kind(kind: &'a UnitKind) -> Option<Key<'a>>
        ensures { option_map text_key result ≡ key_of kind.now }
    {
        match kind {
            UnitKind::Class(class) => Some(Key::class(class.name.as_bytes())),
            UnitKind::GlobalVariable(name) => Some(Key::global(name.as_bytes())),
            UnitKind::GlobalConstant(name) => Some(Key::global(name.as_bytes())),
            UnitKind::Pool(name) => Some(Key::pool(name.as_bytes())),
            UnitKind::PoolVariable { pool, name } => {
                Some(Key::in_pool(pool.as_bytes(), name.as_bytes()))
            }
            UnitKind::PoolConstant { pool, name } => {
                Some(Key::in_pool(pool.as_bytes(), name.as_bytes()))
            }
            UnitKind::Initializer { target, .. } => Some(Key::initializer(target.as_bytes())),
            UnitKind::PoolInitializer { pool, name, .. } => {
                Some(Key::pool_initializer(pool.as_bytes(), name.as_bytes()))
            }
            UnitKind::Method { class, method } => Some(Key::method(
                class.as_bytes(),
                MethodSide::Instance,
                method.selector.as_bytes(),
            )),
            UnitKind::ClassMethod { class, method } => Some(Key::method(
                class.as_bytes(),
                MethodSide::Class,
                method.selector.as_bytes(),
            )),
            UnitKind::Version(_) | UnitKind::ProgramInitializer(_) | UnitKind::Comment(_) => None,
        }
    }
}
