//! Laws over definitions alone.

ghost use Rattle.prim_extended.specs.Constructors.{PartsMakeTheTerm};
ghost use Rattle.prim_extended.specs.StringPrimitives.{CharactersMakeTheText, PartsMakeTheText};

/// `mkterm` makes the term that `explode-term` took apart, without the annotations of its root.
pub fn parts_make_the_term()
    ensures { PartsMakeTheTerm }
{}

/// The parts that `string-split` gives are the text again where they are joined.
pub fn parts_make_the_text()
    ensures { PartsMakeTheText }
{}

/// The characters that `string-characters` gives are the text again where they are joined.
pub fn characters_make_the_text()
    ensures { CharactersMakeTheText }
{}
