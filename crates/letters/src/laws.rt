//! Laws, each the contract of a function that does nothing.
ghost use Rattle.letters.specs.Letters.{NoSpellingBeginsAnother};

/// No letter's bytes begin those of another.
pub fn no_spelling_begins_another()
    ensures { NoSpellingBeginsAnother }
{}
