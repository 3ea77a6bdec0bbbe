//! Laws on the list of settings and on its order.
ghost use Rattle.wl_settings.specs.SettingLaws.{HaveOwnPlaces, KindsAreObeyed, KindsAreWhole, ListsAllSettings};

/// Law: `possible_settings` has each setting that the registers hold, that has the bit rate and whose segments are those of a bit, and nothing
/// else.
pub fn all_settings_are_listed()
    ensures { ListsAllSettings }
{}

/// Law: the order of the list puts no two settings of a controller at one place.
pub fn settings_have_own_places()
    ensures { HaveOwnPlaces }
{}

/// Law: the kind of a controller, if it is known, allows each of its settings.
pub fn kinds_are_obeyed()
    ensures { KindsAreObeyed }
{}

/// Law: a controller with nothing but its kind has each setting of the kind that has the bit rate and whose segments a plan may have. It has
/// no other.
pub fn kinds_are_whole()
    ensures { KindsAreWhole }
{}
