// Until when a name is not tried again that a response has taken.
ghost use Rattle.std.specs.Prelude.{◌≡◌};
ghost use Rattle.host.specs.Stopping.{first_answer, rest_by};
ghost use Rattle.responder.specs.Stopping.{until_by};

use host::Timer;
use message::ResourceRecord;

// How long, in milliseconds: the TTL of the first of the response's answers, which stands at an
// offset. No other record is read.
fn rest_after(answers: u16, datagram: &[u8], at: usize) -> u64
    ensures { result ≡ rest_by (first_answer answers datagram.now at) }
{
    if answers == 0 {
        return Timer::REST;
    }
    match message::read_record(datagram, at) {
        None => Timer::REST,
        Some(first) if first.ttl < ResourceRecord::TOP_BIT => u64::from(first.ttl) * Timer::SECOND,
        Some(_) => 0,
    }
}

// From the time of the response on. A time that has passed check 4 is so far below 2^64 that the
// sum does not wrap.
pub(crate) fn until(time: u64, answers: u16, datagram: &[u8], at: usize) -> u64
    ensures { result ≡ until_by time answers datagram.now at }
{
    time.wrapping_add(rest_after(answers, datagram, at))
}
