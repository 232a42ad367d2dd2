// The rules for each kind of unit.
ghost use Rattle.std.specs.Prelude.{◌≡◌, None, IfOk, map, not, ◌||◌, take};
ghost use Rattle.std.specs.List.{list_any};
ghost use Rattle.std.specs.Option.{option_or};
ghost use Rattle.std.specs.Str.{bytes_eq};
ghost use Rattle.st_tree.specs.declared.units.UnitKind.TheVariants as kinds;
ghost use Rattle.st_checks.specs.Declarations.{declares_class, declares_pool, is_class, superclasses};
ghost use Rattle.st_checks.specs.Faults.{body_fault, class_fault, fault_in, initializer_fault, known_fault, list_fault, method_fault, name_fault, place_fault, pool_initializer_fault, pool_name_fault, pool_target_fault, target_fault, written_of};
ghost use Rattle.st_checks.specs.Lists.{repeats_other};
ghost use Rattle.st_checks.specs.Meanings.{initializer, outside_classes};
ghost use Rattle.st_checks.specs.StaticRules.{repeats_variable, unit_fault};

use crate::bodies::{BodyFaults, Seen, body_faults};
use crate::broken::{Broken, in_body, whole, whole_if};
use crate::built_in::{is_built_in_method, may_have_subclasses};
use crate::line::{ancestors, any_shares, clash, way};
use crate::lists::{NameSet, distinct, repeats};
use crate::table::Table;
use st_base::{MethodSide, OutOfMemory, Reason, Text};
use st_tree::tree::{Body, Method};
use st_tree::units::{ClassUnit, Unit, UnitKind};
use std::alloc::Global;

// Whether a list of the class behind its instance variables has a name twice, or one of these classes above it has a
// variable of it.
fn repeats_other<'a>(
    alloc: Global,
    line: &[&'a ClassUnit],
    class: &'a ClassUnit,
    instance_names: &NameSet<'a>,
) -> Result<bool, OutOfMemory>
    ensures { IfOk result (λ b. b ≡ repeats_other (map (λ c. c.now) line.now) instance_names.now class.now) }
{
    let classes = repeats(alloc, class.class_names.as_slice())?;
    if classes {
        return Ok(true);
    }
    let pools = repeats(alloc, class.pools.as_slice())?;
    if pools {
        return Ok(true);
    }
    let class_instance_names = distinct(alloc, class.class_instance_names.as_slice())?;
    match class_instance_names {
        Some(names) => Ok(any_shares(line, instance_names, &names)),
        None => Ok(true),
    }
}

// Whether a list of the class has a name twice, or one of these classes above it has a variable of it.
fn repeats_variable<'a>(
    alloc: Global,
    line: &[&'a ClassUnit],
    class: &'a ClassUnit,
) -> Result<bool, OutOfMemory>
    ensures { IfOk result (λ b. b ≡ repeats_variable (map (λ c. c.now) line.now) class.now) }
{
    let instance_names = distinct(alloc, class.instance_names.as_slice())?;
    match instance_names {
        Some(names) => repeats_other(alloc, line, class, &names),
        None => Ok(true),
    }
}

// Whether one of these pools is declared by no unit.
fn lacks_pools(table: &Table<'_>, pools: &[Text]) -> bool
    ensures { result ≡ list_any (λ pool. not (list_any (declares_pool pool) table.now)) pools.now }
{
    for pool in pools {
        if !table.has_pool(pool.as_bytes()) {
            return true;
        }
    }
    false
}

// Whether no class of this name may have subclasses in the n-th unit.
fn lacks_superclass(table: &Table<'_>, n: usize, name: &[u8]) -> bool
    ensures { result ≡ not (list_any (bytes_eq name.now) superclasses || list_any (declares_class name.now) (take n table.now)) }
{
    if may_have_subclasses(name) {
        return false;
    }
    !table.has_class_before(n, name)
}

// The fault of a class's lists.
fn list_fault<'a>(
    alloc: Global,
    table: &Table<'a>,
    class: &'a ClassUnit,
) -> Result<Option<Broken>, OutOfMemory>
    ensures { IfOk result (λ b. fault_in b ≡ list_fault table.now class.now) }
{
    let line = ancestors(alloc, table, class.superclass.as_bytes())?;
    let clashes = clash(class.indexed, way(line.as_slice()));
    if clashes {
        return Ok(whole(Reason::IndexedClash));
    }
    let repeats = repeats_variable(alloc, line.as_slice(), class)?;
    if repeats {
        return Ok(whole(Reason::DuplicateVariable));
    }
    Ok(whole_if(
        lacks_pools(table, class.pools.as_slice()),
        Reason::UnknownPool,
    ))
}

// The fault of a class.
fn class_fault<'a>(
    alloc: Global,
    table: &Table<'a>,
    n: usize,
    class: &'a ClassUnit,
) -> Result<Option<Broken>, OutOfMemory>
    ensures { IfOk result (λ b. fault_in b ≡ class_fault (take n table.now) table.now class.now) }
{
    let name = class.name.as_bytes();
    if table.is_class_before(n, name) {
        return Ok(whole(Reason::DuplicateClass));
    }
    if table.is_name_before(n, name) {
        return Ok(whole(Reason::DuplicateName));
    }
    if lacks_superclass(table, n, class.superclass.as_bytes()) {
        return Ok(whole(Reason::UnknownSuperclass));
    }
    list_fault(alloc, table, class)
}

// The fault of a global or a pool.
fn name_fault(table: &Table<'_>, n: usize, name: &Text) -> Option<Broken>
    ensures { fault_in result ≡ name_fault (take n table.now) name.now }
{
    whole_if(
        table.is_name_before(n, name.as_bytes()),
        Reason::DuplicateName,
    )
}

// The fault of a variable or constant of a pool.
fn pool_name_fault(table: &Table<'_>, n: usize, pool: &Text, name: &Text) -> Option<Broken>
    ensures { fault_in result ≡ pool_name_fault (take n table.now) table.now pool.now name.now }
{
    if table.has_in_pool_before(n, pool.as_bytes(), name.as_bytes()) {
        return whole(Reason::DuplicateName);
    }
    whole_if(!table.has_pool(pool.as_bytes()), Reason::UnknownPool)
}

// The fault of a method's class and selector.
fn place_fault(
    table: &Table<'_>,
    n: usize,
    class: &[u8],
    side: MethodSide,
    selector: &[u8],
) -> Option<Broken>
    ensures { fault_in result ≡ place_fault (take n table.now) table.now class.now side selector.now }
{
    if !table.is_class(class) {
        return whole(Reason::UnknownClass);
    }
    if is_built_in_method(class, side, selector) {
        return whole(Reason::ReplacesBuiltin);
    }
    whole_if(
        table.has_method_before(n, class, side, selector),
        Reason::DuplicateMethod,
    )
}

// The fault of what an initializer initializes.
fn target_fault(table: &Table<'_>, n: usize, target: &[u8]) -> Option<Broken>
    ensures { fault_in result ≡ target_fault (take n table.now) table.now target.now }
{
    if !table.is_class(target) && !table.has_global(target) {
        return whole(Reason::UnknownTarget);
    }
    whole_if(
        table.has_initializer_before(n, target),
        Reason::SecondInitializer,
    )
}

// The fault of what an initializer of a pool's variable or constant initializes.
fn pool_target_fault(table: &Table<'_>, n: usize, pool: &[u8], name: &[u8]) -> Option<Broken>
    ensures { fault_in result ≡ pool_target_fault (take n table.now) table.now pool.now name.now }
{
    if !table.has_pool(pool) {
        return whole(Reason::UnknownPool);
    }
    if !table.has_in_pool(pool, name) {
        return whole(Reason::UnknownTarget);
    }
    whole_if(
        table.has_pool_initializer_before(n, pool, name),
        Reason::SecondInitializer,
    )
}

// The first fault of a body, and of what its unit is for.
fn known_fault(faults: BodyFaults, place: Option<Broken>) -> Option<Broken>
    ensures { fault_in result ≡ known_fault faults (fault_in place) }
{
    if faults.repeated.is_some() {
        return in_body(faults.repeated, Reason::DuplicateVariable);
    }
    if place.is_some() {
        return place;
    }
    if faults.undeclared.is_some() {
        return in_body(faults.undeclared, Reason::UndeclaredName);
    }
    in_body(faults.fixed, Reason::NotAssignable)
}

// The fault of a method.
fn method_fault<'a>(
    alloc: Global,
    table: &Table<'a>,
    n: usize,
    class: &'a Text,
    side: MethodSide,
    method: &'a Method,
) -> Result<Option<Broken>, OutOfMemory>
    ensures { IfOk result (λ b. fault_in b ≡ method_fault (take n table.now) table.now class.now side method.now) }
{
    let seen = Seen {
        class: class.as_bytes(),
        side,
        parameters: method.parameters.as_slice(),
        body: &method.body,
    };
    let faults = body_faults(alloc, table, seen)?;
    let place = place_fault(table, n, class.as_bytes(), side, method.selector.as_bytes());
    Ok(known_fault(faults, place))
}

// The body of an initializer that belongs to no class.
fn outside_classes(body: &Body) -> Seen<'_>
    ensures { written_of result ≡ outside_classes body.now }
{
    Seen {
        class: b"UndefinedObject",
        side: MethodSide::Instance,
        parameters: &[],
        body,
    }
}

// The body of an initializer of a class or a global.
fn initializer<'a>(table: &Table<'a>, target: &'a [u8], body: &'a Body) -> Seen<'a>
    ensures { written_of result ≡ initializer (is_class table.now target.now) target.now body.now }
{
    if table.is_class(target) {
        return Seen {
            class: target,
            side: MethodSide::Class,
            parameters: &[],
            body,
        };
    }
    outside_classes(body)
}

// The fault of an initializer of a class or a global.
fn initializer_fault<'a>(
    alloc: Global,
    table: &Table<'a>,
    n: usize,
    target: &'a Text,
    body: &'a Body,
) -> Result<Option<Broken>, OutOfMemory>
    ensures { IfOk result (λ b. fault_in b ≡ initializer_fault (take n table.now) table.now target.now body.now) }
{
    let seen = initializer(table, target.as_bytes(), body);
    let faults = body_faults(alloc, table, seen)?;
    let place = target_fault(table, n, target.as_bytes());
    Ok(known_fault(faults, place))
}

// The fault of an initializer of a pool's variable or constant.
fn pool_initializer_fault<'a>(
    alloc: Global,
    table: &Table<'a>,
    n: usize,
    pool: &'a Text,
    name: &'a Text,
    body: &'a Body,
) -> Result<Option<Broken>, OutOfMemory>
    ensures { IfOk result (λ b. fault_in b ≡ pool_initializer_fault (take n table.now) table.now pool.now name.now body.now) }
{
    let faults = body_faults(alloc, table, outside_classes(body))?;
    let place = pool_target_fault(table, n, pool.as_bytes(), name.as_bytes());
    Ok(known_fault(faults, place))
}

// The fault of a program initializer.
fn program_fault<'a>(
    alloc: Global,
    table: &Table<'a>,
    body: &'a Body,
) -> Result<Option<Broken>, OutOfMemory>
    ensures { IfOk result (λ b. fault_in b ≡ body_fault table.now (outside_classes body.now) None) }
{
    let faults = body_faults(alloc, table, outside_classes(body))?;
    Ok(known_fault(faults, None))
}

/// The fault of the n-th unit, counted from 0.
pub(crate) fn unit_fault<'a>(
    alloc: Global,
    table: &Table<'a>,
    n: usize,
    unit: &'a Unit,
) -> Result<Option<Broken>, OutOfMemory>
    ensures { IfOk result (λ b. fault_in b ≡ unit_fault table.now n unit.now.kind) }
{
    match &unit.kind {
        UnitKind::Class(class) => class_fault(alloc, table, n, class),
        UnitKind::GlobalVariable(name) => Ok(name_fault(table, n, name)),
        UnitKind::GlobalConstant(name) => Ok(name_fault(table, n, name)),
        UnitKind::Pool(name) => Ok(name_fault(table, n, name)),
        UnitKind::PoolVariable { pool, name } => Ok(pool_name_fault(table, n, pool, name)),
        UnitKind::PoolConstant { pool, name } => Ok(pool_name_fault(table, n, pool, name)),
        UnitKind::Initializer { target, body } => initializer_fault(alloc, table, n, target, body),
        UnitKind::PoolInitializer { pool, name, body } => {
            pool_initializer_fault(alloc, table, n, pool, name, body)
        }
        UnitKind::ProgramInitializer(body) => program_fault(alloc, table, body),
        UnitKind::Method { class, method } => {
            method_fault(alloc, table, n, class, MethodSide::Instance, method)
        }
        UnitKind::ClassMethod { class, method } => {
            method_fault(alloc, table, n, class, MethodSide::Class, method)
        }
        UnitKind::Version(_) => Ok(None),
        UnitKind::Comment(_) => Ok(None),
    }
}
