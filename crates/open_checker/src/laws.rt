//! What the points of an escape say of terms, each law the contract of a function that does
//! nothing. The statements are in `specs/EscapeLaws.antt`.

ghost use Rattle.open_checker.specs.EscapeLaws.{EqualStoresEndAlike};
ghost use Rattle.open_checker.specs.EscapeLaws.{LikeStoresAreEqual, LikeValuesAreEqual};
ghost use Rattle.open_checker.specs.EscapeLaws.{StoresDiffer, ValuesDiffer};

/// Where `unlike_ends` finds nothing: of two stores that are equal in the escape both end or
/// neither does.
pub fn equal_stores_end_alike()
    ensures { EqualStoresEndAlike }
{}

/// Where `unlike_stores` finds nothing: store terms with marks that have one constructor and
/// parameter, and arguments that agree, are equal in the escape.
pub fn like_stores_are_equal()
    ensures { LikeStoresAreEqual }
{}

/// Where `unlike_values` finds nothing: the same of value terms.
pub fn like_values_are_equal()
    ensures { LikeValuesAreEqual }
{}

/// Where `is_listed_once` is true: any two store marks are of different terms.
pub fn stores_differ()
    ensures { StoresDiffer }
{}

/// .. and any two value marks.
pub fn values_differ()
    ensures { ValuesDiffer }
{}
