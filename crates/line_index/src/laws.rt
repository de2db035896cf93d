//! Laws of lines and columns. Each is the contract of a function that makes no call.

ghost use Rattle.line_index.specs.Laws.{PlacesLeadBack, LongColumnsEndLines, UnitsAreOfCharacters};

/// At each character boundary, line and column lead back to the offset.
pub fn places_lead_back()
    ensures { PlacesLeadBack }
{}

/// A column past the end of its line leads to that end.
pub fn long_columns_end_lines()
    ensures { LongColumnsEndLines }
{}

/// The units of a text are those of its characters.
pub fn units_are_of_characters()
    ensures { UnitsAreOfCharacters }
{}
