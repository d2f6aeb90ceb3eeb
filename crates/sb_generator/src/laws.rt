//! The limits of the generated input as numbers, and the law that it is accepted whole. Each function has its law for
//! a contract, and does nothing.

ghost use Rattle.sb_generator.specs.Laws as law;

/// At most ten million records are made, in groups of eight. Keys are 0 to 4, and values -50 to 50.
pub fn limits()
    ensures { law.Limits }
{}

/// An intake of stream `a` alone that refuses late records, where keys are numbers, refuses no line of the generated
/// text, whatever part of it was read. At its end the accepted items are those that it was made of.
pub fn generated_text_is_accepted()
    ensures { law.GeneratedTextIsAccepted }
{}
