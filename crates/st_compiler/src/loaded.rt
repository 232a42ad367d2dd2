// A program with the code of its methods, blocks and initializers.
ghost use Rattle.std.specs.Prelude.{◌≡◌, map, IfOk};
ghost use Rattle.st_code.specs.Compiled.{compile_of, seen_code};
ghost use Rattle.st_code.specs.Definitions.{RunLimits};
ghost use Rattle.program_image.specs.Finding.{program_of_image, unit_codes};
ghost use Rattle.st_compiler.specs.Drafted.{seen_initializer};
ghost use Rattle.st_compiler.specs.Loading.{IsBuilt, IsParts};

use crate::lookup::Lookups;
use crate::placing::codes_of;
use crate::units::{Definitions, Initializer, definitions_of};
use program_image::Image;
use sqlite_items::Items;
use st_base::OutOfMemory;
use st_code::Code;
use std::alloc::Global;
use std::marker::Model;

/// A program with its code. Contracts see it as the units of its file.
#[derive(Drop)]
pub struct Loaded {
    image: Image,
    parts: Parts,
}

/// What the machine runs, beside the image.
#[derive(Drop)]
pub(crate) struct Parts {
    codes: Items<Code>,
    unit_codes: Items<u32>,
    initializers: Items<Initializer>,
    literals: u32,
}

impl Model for Loaded {
    ghost use Rattle.std.specs.Prelude.{List};
    ghost use Rattle.std.specs.Coded.{coded_list};
    ghost use Rattle.st_tree.specs.contracts.units.Unit as unit;
    ghost use Rattle.st_tree.specs.declared.units.Unit.{Unit};

    ghost coded = { coded_list unit.the_row.coded };

    ghost Value = { List Unit };

    ghost use Rattle.st_compiler.specs.Loading.{IsParts};

    ghost view = { λ l. l.image };

    ghost invariant = { λ l. IsParts l.image l.parts };
}

// What runs of the definitions, with the code of each body.
fn parts_from(alloc: Global, definitions: Definitions<'_, '_>) -> Result<Parts, OutOfMemory>
    ensures { IfOk result (IsBuilt definitions.entry) }
{
    let codes = codes_of(alloc, definitions.bodies())?;
    let literals = definitions.literals();
    let (initializers, unit_codes) = definitions.into_rows();
    Ok(Parts {
        codes,
        unit_codes,
        initializers,
        literals,
    })
}

fn parts_found(alloc: Global, lookups: &Lookups<'_>) -> Result<Parts, OutOfMemory>
    ensures { IfOk result (IsParts lookups.now) }
{
    let definitions = definitions_of(alloc, lookups)?;
    parts_from(alloc, definitions)
}

fn parts_of(alloc: Global, image: &Image) -> Result<Parts, OutOfMemory>
    ensures { IfOk result (IsParts image.now) }
{
    let lookups = Lookups::new(alloc, image)?;
    parts_found(alloc, &lookups)
}

/// The code of a program. It takes the image whole.
pub fn compile(alloc: Global, image: Image) -> Result<Loaded, OutOfMemory>
    ensures { IfOk result (λ loaded. loaded ≡ image) }
{
    let parts = parts_of(alloc, &image)?;
    Ok(Loaded { image, parts })
}

impl Loaded {
    /// The image that was compiled.
    pub fn image(&self) -> &Image
        ensures { result.now ≡ self.now }
    {
        &self.image
    }

    /// The codes by number: of each unit its body and then its blocks, in the order of the text.
    pub fn codes(&self) -> &[Code]
        ensures { (limits : RunLimits) → map seen_code result.now ≡ compile_of (program_of_image self.now limits) }
    {
        self.parts.codes.as_slice()
    }

    /// The number of the code of each unit's body, by the place of the unit in the file. A unit
    /// without a body has the number that comes next.
    pub fn unit_codes(&self) -> &[u32]
        ensures { result.now ≡ unit_codes self.now }
    {
        self.parts.unit_codes.as_slice()
    }

    /// The initializers in file order.
    pub fn initializers(&self) -> &[Initializer]
        ensures { (limits : RunLimits) → map seen_initializer result.now ≡ (program_of_image self.now limits).initializers }
    {
        self.parts.initializers.as_slice()
    }

    /// How many objects the literals of the program are. The texts of troubles are numbered on
    /// from there.
    pub fn literals(&self) -> u32
        ensures { (limits : RunLimits) → result ≡ (program_of_image self.now limits).trouble_place }
    {
        self.parts.literals
    }
}
