//! Laws of names.
ghost use Rattle.dns_name.specs.Laws.{ReadsBack, PlainIsWritten, OrderIsTotal, EqualAreSame, OneName, OneFault};
ghost use Rattle.dns_name.specs.Laws.{NotBoth, NameOrFault, OneWithin, NotBothWithin, WithinOrFault};

/// A name that is written is read again, whatever the origin.
pub fn written_is_read_again()
    ensures { ReadsBack }
{}

/// An absolute text without escapes is the written text of its labels.
pub fn plain_text_is_written()
    ensures { PlainIsWritten }
{}

/// The order of names is total, and names rank equal exactly where they are the same.
pub fn folded_order_is_total()
    ensures total { OrderIsTotal }
    ensures same { EqualAreSame }
{}

/// A place of a message has one name or one fault of a name, and never both.
pub fn name_at_is_one()
    ensures one_name { OneName }
    ensures one_fault { OneFault }
    ensures not_both { NotBoth }
    ensures some { NameOrFault }
{}

/// A name whose first label run is to lie before a place stands there or has one fault, and never both.
pub fn name_within_is_one()
    ensures one_fault { OneWithin }
    ensures not_both { NotBothWithin }
    ensures some { WithinOrFault }
{}
