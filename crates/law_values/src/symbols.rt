// What is claimed of the numbers of symbols and selectors in each state.
ghost use Rattle.law_values.specs.NamedSymbols.{HeldSymbolsAreNamed, SymbolsAreNamed};

/// In no state that a file's run comes to stands a number of a symbol or selector that names nothing:
/// neither in values, nor in what is sent, nor in the code that is left, of the machine that keeps
/// every scope. So of the flat machine each Symbol in an object's slots and in a variable of the
/// program is named.
pub fn each_symbol_is_named()
    ensures scoped { SymbolsAreNamed }
    ensures held { HeldSymbolsAreNamed }
{}
