//! The laws of the values of forms, each the contract of a function that does nothing.
//! The statements are in `specs/Laws.antt`.

ghost use Rattle.affine_forms.specs.Laws.{ConstantIsItself, CounterIsItsValue, SymbolIsItsValue, MultipleIsAdded, SubstitutedIsAtImage, UndoneIsBack};

/// A constant has its value.
pub fn constant_is_itself()
    ensures { ConstantIsItself }
{}

/// The form of a counter has the counter's value, 0 where there is none.
pub fn counter_is_its_value()
    ensures { CounterIsItsValue }
{}

/// The form of a symbol has the symbol's value, 0 where there is none.
pub fn symbol_is_its_value()
    ensures { SymbolIsItsValue }
{}

/// The value of a form and a multiple of another is the one value and the multiple of the other.
pub fn multiple_is_added()
    ensures { MultipleIsAdded }
{}

/// A form with forms for its counters has the value of the form at their values.
pub fn substituted_is_at_image()
    ensures { SubstitutedIsAtImage }
{}

/// Maps of which one undoes the other give each counter back.
pub fn undone_is_back()
    ensures { UndoneIsBack }
{}
