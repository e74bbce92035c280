//! Laws of the language: what its definitions leave no choice in. The laws of marks stand with the marks, in `lt_delta`.
ghost use Rattle.lt_model.specs.Alike.{AlikeTokens, TokensTellCells};
ghost use Rattle.lt_model.specs.Laws.{OneDerivation, OneFault, NoFaultAhead, OneReading, OneReport, SomeChoice, FoundChoice, KindsDetermined, SerialJoins, CodeStays, NormalFollows, FormsStayGood, FormsFill, OneForm, NumbersWithin};

/// Tokens spell at most one list of items. Bytes have at most one reading: the same items, and the same end or fault.
/// So they have at most one report, with marks and without.
pub fn readings()
    ensures derivation { OneDerivation }
    ensures reading { OneReading }
    ensures report { OneReport }
{}

/// A token has at most one fault, and none has one where more tokens would make a legal script of them.
pub fn faults()
    ensures one { OneFault }
    ensures ahead { NoFaultAhead }
{}

/// Where a choice of one kind for each variable fits a statement, the check finds one; and the one that it finds fits.
/// A bound term has the same kind in all that fit, so that it doesn't matter which of them is found.
pub fn kinds()
    ensures some { SomeChoice }
    ensures found { FoundChoice }
    ensures determined { KindsDetermined }
{}

/// Programs after programs give the replies and the marks of both, one list after the other: the later ones run on the
/// state that the earlier ones left.
pub fn serial()
    ensures { SerialJoins }
{}

/// The check looks at no constant: a statement with others has the same code, and its normal form is the first one's with
/// these.
pub fn forms()
    ensures code { CodeStays }
    ensures normal { NormalFollows }
    ensures filled { FormsStayGood }
{}

/// A statement is its form, filled with its constants. A text has one form at most. The
/// form of a statement within the limits is within them.
pub fn texts_of_forms()
    ensures fill { FormsFill }
    ensures one { OneForm }
    ensures within { NumbersWithin }
{}

/// Tokens that are a statement's but for constants are a statement of the same form. A statement's constants are told from its
/// tokens, from the left.
pub fn tokens_of_forms()
    ensures alike { AlikeTokens }
    ensures cells { TokensTellCells }
{}
