//! Laws of the places.
ghost use Rattle.bk_source_map.specs.Laws.{StatementsArePlaced, PlacesAreCounted};

/// The statements of the placed scheme are those of the scheme, and its places are those that `places_of` finds.
pub fn statements_are_placed()
    ensures { StatementsArePlaced }
{}

/// The places of procedures are as many as their statements, and those of other data as many as those.
pub fn places_are_counted()
    ensures { PlacesAreCounted }
{}
