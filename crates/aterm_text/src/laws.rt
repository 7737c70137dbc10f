//! Laws over the definitions of the text of terms alone. Each is the contract of a function that
//! does nothing.

ghost use Rattle.aterm_text.specs.Laws.{OneTerm, PrintedTextIsAsLong, PrintedTextIsOneLine, PrettyTextGoesOn, PrettyTextReadsBack, PrintedTextNests, PrintedTextReadsBack};

/// The printed text of a term spells this term.
pub fn printed_text_reads_back()
    ensures { PrintedTextReadsBack }
{}

/// The text of a term over lines spells this term.
pub fn pretty_text_reads_back()
    ensures { PrettyTextReadsBack }
{}

/// No line of the text over lines but the first begins without a space.
pub fn pretty_text_goes_on()
    ensures { PrettyTextGoesOn }
{}

/// A text spells at most one term, and at most one annotation part.
pub fn one_term()
    ensures { OneTerm }
{}

/// The printed text of a term is one line: bytes from 32 to 126, without white space at its ends.
pub fn printed_text_is_one_line()
    ensures { PrintedTextIsOneLine }
{}

/// The printed text of a term nests brackets no deeper than the term is high.
pub fn printed_text_nests()
    ensures { PrintedTextNests }
{}

/// The printed text of a term has at least one byte for each term in it.
pub fn printed_text_is_as_long()
    ensures { PrintedTextIsAsLong }
{}
