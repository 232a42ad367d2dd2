// The rules on bodies: names that are repeated, undeclared, or assigned though they may not be.
ghost use Rattle.std.specs.Prelude.{◌≡◌, [], ◌∷◌, map, true, false, IfOk, OnOk};
ghost use Rattle.st_checks.specs.Bodies.{all_within, mention, names_in_block, names_in_body, names_in_expr, names_in_message, names_in_operand, names_in_primary, names_in_statement, only_mentions};
ghost use Rattle.st_checks.specs.Faults.{IsBodyFaults, written_of};
ghost use Rattle.st_checks.specs.Meanings.{in_scopes, or_else};
ghost use Rattle.st_checks.specs.Views.{meant, outside};
ghost use Rattle.st_checks.specs.Walks.{entered, left, noted};

use crate::meaning::Meaning;
use crate::scopes::{Scopes, note_place};
use crate::table::Table;
use crate::view::View;
use st_base::{MethodSide, OutOfMemory};
use st_tree::tree::{Block, Body, Expr, Message, Name, Operand, Primary, Statement};
use std::alloc::Global;

/// A method or initializer, with the class and the side from which it sees names.
#[derive(Clone, Copy)]
pub(crate) struct Seen<'a> {
    pub(crate) class: &'a [u8],
    pub(crate) side: MethodSide,
    pub(crate) parameters: &'a [Name],
    pub(crate) body: &'a Body,
}

/// The least place of a name that breaks each rule, where there is one.
#[derive(Clone, Copy, Debug, PartialEq, Eq)]
pub(crate) struct BodyFaults {
    /// A name that stands twice in one list of parameters and temporaries.
    pub(crate) repeated: Option<u32>,
    /// A variable that doesn't resolve.
    pub(crate) undeclared: Option<u32>,
    /// An assigned parameter, constant, class or `Transcript`.
    pub(crate) fixed: Option<u32>,
}

// A walk over a body, with what it has found so far.
#[derive(Drop)]
struct Walk<'a> {
    alloc: Global,
    view: View<'a>,
    scopes: Scopes<'a>,
    faults: BodyFaults,
}

impl<'a> Walk<'a> {
    // What the name stands for at this place.
    fn meaning(&self, name: &[u8]) -> Meaning
        ensures { meant result ≡ or_else (in_scopes self.now.scopes name.now) (outside self.now.view name.now) }
    {
        match self.scopes.meaning(name) {
            Meaning::Undeclared => self.view.meaning(name),
            found => found,
        }
    }

    fn read(&mut self, name: &Name)
        ensures { self.new ≡ noted self.old (only_mentions (mention false self.old.scopes name.now ∷ [])) }
    {
        match self.meaning(name.text.as_bytes()) {
            Meaning::Undeclared => note_place(&mut self.faults.undeclared, name.at),
            Meaning::Fixed | Meaning::Assignable => {}
        }
    }

    fn assign(&mut self, name: &Name)
        ensures { self.new ≡ noted self.old (only_mentions (mention true self.old.scopes name.now ∷ [])) }
    {
        match self.meaning(name.text.as_bytes()) {
            Meaning::Undeclared => note_place(&mut self.faults.undeclared, name.at),
            Meaning::Fixed => note_place(&mut self.faults.fixed, name.at),
            Meaning::Assignable => {}
        }
    }

    fn assign_all(&mut self, names: &[Name])
        ensures { self.new ≡ noted self.old (only_mentions (map (mention true self.old.scopes) names.now)) }
    {
        for name in names {
            self.assign(name);
        }
    }

    fn enter(&mut self, parameters: &'a [Name], temporaries: &'a [Name]) -> Result<(), OutOfMemory>
        ensures { OnOk result (self.new ≡ entered self.old (record { parameters = parameters.now; temporaries = temporaries.now })) }
    {
        self.scopes.enter(
            self.alloc,
            parameters,
            temporaries,
            &mut self.faults.repeated,
        )?;
        Ok(())
    }

    fn leave(&mut self)
        ensures { self.new ≡ left self.old }
    {
        self.scopes.leave();
    }

    #[cycle(walk)]
    fn primary(&mut self, primary: &'a Primary) -> Result<(), OutOfMemory>
        ensures { OnOk result (self.new ≡ noted self.old (names_in_primary primary.now self.old.scopes)) }
    {
        match primary {
            Primary::Variable(name) => {
                self.read(name);
                Ok(())
            }
            Primary::SelfValue => Ok(()),
            Primary::SuperValue => Ok(()),
            Primary::Literal(_) => Ok(()),
            Primary::Block(block) => self.block(block),
            Primary::Paren(expr) => self.expr(expr.get()),
        }
    }

    #[cycle(walk)]
    fn operand(&mut self, operand: &'a Operand) -> Result<(), OutOfMemory>
        ensures { OnOk result (self.new ≡ noted self.old (names_in_operand operand.now self.old.scopes)) }
    {
        self.primary(&operand.primary)?;
        self.messages(operand.chain.as_slice())?;
        Ok(())
    }

    #[cycle(walk)]
    fn messages(&mut self, messages: &'a [Message]) -> Result<(), OutOfMemory>
        ensures { OnOk result (self.new ≡ noted self.old (all_within (map names_in_message messages.now) self.old.scopes)) }
    {
        for message in messages {
            self.message(message)?;
        }
        Ok(())
    }

    #[cycle(walk)]
    fn message(&mut self, message: &'a Message) -> Result<(), OutOfMemory>
        ensures { OnOk result (self.new ≡ noted self.old (names_in_message message.now self.old.scopes)) }
    {
        for argument in message.arguments.as_slice() {
            self.operand(argument)?;
        }
        Ok(())
    }

    #[cycle(walk)]
    fn expr(&mut self, expr: &'a Expr) -> Result<(), OutOfMemory>
        ensures { OnOk result (self.new ≡ noted self.old (names_in_expr expr.now self.old.scopes)) }
    {
        self.assign_all(expr.targets.as_slice());
        self.operand(&expr.operand)?;
        self.messages(expr.cascade.as_slice())?;
        Ok(())
    }

    #[cycle(walk)]
    fn statement(&mut self, statement: &'a Statement) -> Result<(), OutOfMemory>
        ensures { OnOk result (self.new ≡ noted self.old (names_in_statement statement.now self.old.scopes)) }
    {
        match statement {
            Statement::Value(expr) => self.expr(expr),
            Statement::Return(expr) => self.expr(expr),
        }
    }

    #[cycle(walk)]
    fn statements(&mut self, statements: &'a [Statement]) -> Result<(), OutOfMemory>
        ensures { OnOk result (self.new ≡ noted self.old (all_within (map names_in_statement statements.now) self.old.scopes)) }
    {
        for statement in statements {
            self.statement(statement)?;
        }
        Ok(())
    }

    // A body, with the parameters that stand before it.
    #[cycle(walk)]
    fn body(&mut self, parameters: &'a [Name], body: &'a Body) -> Result<(), OutOfMemory>
        ensures { OnOk result (self.new ≡ noted self.old (names_in_body body.now parameters.now self.old.scopes)) }
    {
        self.enter(parameters, body.temporaries.as_slice())?;
        self.statements(body.statements.as_slice())?;
        self.leave();
        Ok(())
    }

    #[cycle(walk)]
    fn block(&mut self, block: &'a Block) -> Result<(), OutOfMemory>
        ensures { OnOk result (self.new ≡ noted self.old (names_in_block block.now self.old.scopes)) }
    {
        self.body(block.parameters.as_slice(), &block.body)
    }
}

/// The faults of a body.
pub(crate) fn body_faults<'a>(
    alloc: Global,
    table: &Table<'a>,
    seen: Seen<'a>,
) -> Result<BodyFaults, OutOfMemory>
    ensures { IfOk result (IsBodyFaults table.now (written_of seen.entry)) }
{
    let view = View::new(alloc, table, seen.class, seen.side)?;
    let mut walk = Walk {
        alloc,
        view,
        scopes: Scopes::new(alloc),
        faults: BodyFaults {
            repeated: None,
            undeclared: None,
            fixed: None,
        },
    };
    walk.body(seen.parameters, seen.body)?;
    Ok(walk.faults)
}
