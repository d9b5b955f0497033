// The settings of a host, checked at set-up.
ghost use Rattle.std.specs.Prelude.{◌≡◌};
ghost use Rattle.std.specs.List.{list_any};
ghost use Rattle.host.specs.SetUp.{is_interval, bad_setting};

use host::Timer;
use octets::Setting;

fn is_interval(interval: u16) -> bool
    ensures { result ≡ is_interval interval }
{
    matches!(u64::from(interval), Timer::SHORT | Timer::LONG)
}

// Whether a used interface has a group address, or an interval that is neither of the two.
fn bad_setting(setting: &Setting) -> bool
    ensures { result ≡ bad_setting setting.now }
{
    octets::is_family(setting.family)
        && (octets::is_group(setting.own()) || !is_interval(setting.interval))
}

pub(crate) fn any_bad(settings: &[Setting]) -> bool
    ensures { result ≡ list_any bad_setting settings.now }
{
    settings.iter().any(bad_setting)
}
