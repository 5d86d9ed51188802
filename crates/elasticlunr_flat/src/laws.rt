//! Laws over the definitions: the contracts of functions that do nothing.

ghost use Rattle.elasticlunr_flat.specs.Flat.{flat_cutting, flat_input, flat_search};
ghost use Rattle.elasticlunr_flat.specs.Flat.{IsCutting, IsInput, IsSearch};
ghost use Rattle.elasticlunr_flat.specs.Reading.{IsReadOneWay};

/// Two inputs with which the same bytes begin are equal, and so is what follows them.
pub fn bytes_begin_with_one_input()
    ensures { IsReadOneWay IsInput flat_input }
{}

/// The same of two inputs with how their index is cut into pieces.
pub fn bytes_begin_with_one_cutting()
    ensures { IsReadOneWay IsCutting flat_cutting }
{}

/// The same of two searches.
pub fn bytes_begin_with_one_search()
    ensures { IsReadOneWay IsSearch flat_search }
{}
