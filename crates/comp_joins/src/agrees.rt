//! Laws of two valid components and of one that joins them: they have what the law of joined components asks of them.

ghost use Rattle.comp_joins.specs.Handing.{HandedOnFits};
ghost use Rattle.comp_joins.specs.Numbers.{ValidAgree};

/// Two valid components meet what the law of joined components asks of the two, by the numbers that are counted here, where each import of
/// the second is met by one of its type.
pub fn valid_components_agree()
    ensures { ValidAgree }
{}

/// A component that joins two others and hands on, by aliases and exports, all that the second's instance exports, fits after them
/// as the law of joined components asks: each function is exported as the second exports it.
pub fn handed_exports_fit()
    ensures { HandedOnFits }
{}
