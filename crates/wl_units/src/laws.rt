//! Laws on ratios, as contracts of functions with an empty body.
ghost use Rattle.wl_units.specs.Ratios.{LowestTermsKeepTheValue};

/// Law: a ratio in lowest terms has the ratio's value.
pub fn lowest_terms_keep_the_value()
    ensures { LowestTermsKeepTheValue }
{}
