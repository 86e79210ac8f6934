// Laws of the definitions. The functions do nothing: their contracts are the laws.
ghost use Rattle.bl_entry.specs.Decoded.{NoneBegins};

/// No encoding is the front of another, and each is of one entry.
pub fn no_encoding_begins_another()
    ensures { NoneBegins }
{}
