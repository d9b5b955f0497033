// How a call after set-up opens: the checks 1 to 4, on numbers alone, and the reading of the table.
ghost use Rattle.std.specs.Prelude.{◌≡◌, ◌≤◌, IfOk};
ghost use Rattle.host.specs.Bounds.{latest};
ghost use Rattle.responder.specs.Opening.{opened_by, opening};

use crate::served::Site;
use host::Host;
use name_table::Table;
use refusal::Refusal;

// The names of the table, for a call at a time with a buffer of so many octets.
pub(crate) fn open(size: usize, site: Site, table: &[u8], time: u64) -> Result<Table, Refusal>
    ensures opened { opened_by result table.now
        ≡ opening size table.now site.interface site.setting.family site.clock time }
    ensures in_range { IfOk result (λ _. time ≤ latest) }
{
    if size < Host::ROOM {
        return Err(Refusal::Room);
    }
    let names = Table::read(table)?;
    if checks::is_unused(site.interface, site.setting.family) {
        return Err(Refusal::Interface);
    }
    if checks::bad_clock(site.clock, time) {
        return Err(Refusal::Clock);
    }
    Ok(names)
}
