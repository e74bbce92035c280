//! Laws of scripts that the readers carry.
ghost use Rattle.lt_script.specs.Laws.{SomeReading};
ghost use Rattle.lt_script.specs.Lexed.{TextsOfForms};

/// Bytes have a reading. They have no second one, by `theorems::readings` of `lt_model`.
pub fn readings()
    ensures { SomeReading }
{}

/// What fits a form divides into tokens that differ from those of the form's text in constants alone.
pub fn texts_of_forms()
    ensures { TextsOfForms }
{}
