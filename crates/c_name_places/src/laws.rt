ghost use Rattle.c_name_places.specs.Laws.{NamesHavePlaces, BadOrRight};

/// A file has as many names as there are among its tokens.
pub fn names_have_places()
    ensures { NamesHavePlaces }
{}

/// A file has a first bad name, or all its names are right.
pub fn bad_or_right()
    ensures { BadOrRight }
{}
