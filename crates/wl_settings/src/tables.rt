//! The first fault of a table.
ghost use Rattle.std.specs.Prelude.{◌≡◌, option_map};
ghost use Rattle.toml.specs.View.{table_view};
ghost use Rattle.wl_setup.specs.Faults.{key_fault};
ghost use Rattle.wl_settings.specs.Faults.{PassesTest, fault_of_table, settings_fault};

use crate::fault::SettingsFault;
use crate::keys::Key;
use std::alloc::Global;
use toml::Table;
use wl_setup::{KeyFault, Text, Wrong, fault_of_keys};

/// Refuses a text that has this fault.
fn refuse(alloc: Global, fault: Option<KeyFault>) -> Result<(), SettingsFault>
    ensures { PassesTest (option_map settings_fault (option_map key_fault fault.entry)) result }
{
    let Some(fault) = fault else {
        return Ok(());
    };
    let key = Text::new(alloc, fault.key)?;
    Err(match fault.wrong {
        Wrong::Missing => SettingsFault::Missing(key),
        Wrong::Kind => SettingsFault::Kind(key),
        Wrong::Unknown => SettingsFault::Unknown(key),
    })
}

/// Tests one table by its keys, in their order.
pub(crate) fn check_table(
    alloc: Global,
    table: &Table,
    required: &[Key],
    optional: &[Key],
) -> Result<(), SettingsFault>
    ensures { PassesTest (fault_of_table required.now optional.now (table_view table.now)) result }
{
    refuse(alloc, fault_of_keys(table, required, optional))
}
