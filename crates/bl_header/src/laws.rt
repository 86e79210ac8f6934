// Laws of the definitions. The functions do nothing: their contracts are the laws.
ghost use Rattle.bl_header.specs.Fields.{NamesAreReadBack};
ghost use Rattle.bl_header.specs.TypeTexts.{AreReadAsSpelled};

/// A type text is a type name, then `(single)`, `(set)` or nothing, then `[]` or nothing, in any
/// letter case, and every such text says the type that it spells.
pub fn type_texts_are_read_as_spelled()
    ensures { AreReadAsSpelled }
{}

/// A valid name that doesn't begin with `~`, with a backslash before each of its colons, is read
/// back as that name without a type text.
pub fn names_are_read_back()
    ensures { NamesAreReadBack }
{}
