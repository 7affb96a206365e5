//! Symbols, packages and the table that every session begins with. Definitions, and laws of symbols, of naming and of that table.
#![tactic(auto)]

ghost use Rattle.model_symbols.specs.Laws.{Interning, NamesObjects, OpensRight};

/// Naming tells known objects apart, and stays as the table grows.
pub fn naming_tells_objects_apart()
    ensures { NamesObjects }
{}

/// What interning a symbol does.
pub fn interning_numbers_symbols()
    ensures { Interning }
{}

/// The opening table holds the symbols that definitions name.
pub fn opening_holds_named_symbols()
    ensures { OpensRight }
{}
