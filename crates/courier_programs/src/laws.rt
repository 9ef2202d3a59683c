//! Laws of names, as functions that do nothing.
ghost use Rattle.courier_programs.specs.Laws.{ReadTypesAreNamed, ReferredTypeIsDeclared};

/// What a reference stands for as a type was declared before it, by that very name and as that type: in the same
/// program, or in the program that is depended upon by the name in front.
pub fn referred_type_is_declared()
    ensures { ReferredTypeIsDeclared }
{}

/// In the types of a program that is read, each member of an enumeration and each candidate of a choice has a name
/// of its own, if so in the programs that were read before it. So equal texts of its values are of equal values.
pub fn read_types_are_named()
    ensures { ReadTypesAreNamed }
{}
