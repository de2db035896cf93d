//! Laws of places. Each is the contract of a function that makes no call.

ghost use Rattle.text_changes.specs.Laws.{PlacesAreFound, PlacesAreBoundaries};

/// At each character boundary, line and column lead back to the offset.
pub fn places_are_found()
    ensures { PlacesAreFound }
{}

/// A place that has an offset leads to a character boundary.
pub fn places_are_boundaries()
    ensures { PlacesAreBoundaries }
{}
